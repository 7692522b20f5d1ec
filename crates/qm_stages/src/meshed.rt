//! A soup with the mesh of its faces.

ghost use Rattle.std.specs.Prelude.{◌≡◌, ◌≤◌, false, true, length, IfOk, IsErrOf, OnOk};
ghost use Rattle.std.specs.List.{list_all};
ghost use Rattle.def_mesh.specs.Faults.{IsFirstFault};
ghost use Rattle.def_mesh.specs.Manifold.{IsManifold};
ghost use Rattle.def_mesh.specs.declared.Place.{Place};
ghost use Rattle.def_remesh.specs.TextLaws.{IsSolid};
ghost use Rattle.def_text.specs.Decimal.{is_far};
ghost use Rattle.def_text.specs.FaceSet.{FaceSet};
ghost use Rattle.def_text.specs.Laws.{is_position};
ghost use Rattle.def_written.specs.Laws.{AreQuads};

use crate::no_mesh::NoMesh;
use def_text::{MAX_F_LINES, MAX_V_LINES, Micro, Soup};
use qm_mesh::{Mesh, MeshFail, build};
use std::alloc::Global;
use std::marker::Model;

/// A soup whose faces are a manifold, with the mesh of these. Contracts see the soup.
#[derive(Drop)]
pub struct Meshed {
    soup: Soup,
    mesh: Mesh,
}

impl Model for Meshed {
    ghost use Rattle.std.specs.Prelude.{◌≡◌};
    ghost use Rattle.def_text.specs.FaceSet.{FaceSet};

    ghost Value = { FaceSet };

    ghost view = { λ m. m.soup };

    ghost invariant = { λ m. m.mesh ≡ m.soup.faces };
}

impl Meshed {
    /// The mesh of the soup's faces, or the first place where they are no manifold. Linear.
    #[tactic(auto, using(crate::proofs::Solids::solid_of))]
    pub fn new(alloc: Global, soup: Soup) -> Result<Meshed, NoMesh>
        requires few { (length soup.pos ≤ MAX_V_LINES) × (length soup.faces ≤ MAX_F_LINES) }
        ensures soup { IfOk result (λ meshed. meshed ≡ soup) }
        ensures manifold { OnOk result (IsManifold soup.faces) }
        ensures solid { OnOk result (IsSolid soup) }
        ensures refused { (place : Place) (other : FaceSet) → IsErrOf result (NoMesh.NotManifold place other)
            → (other ≡ soup) × IsFirstFault soup.faces place × (¬ IsManifold soup.faces) }
    {
        match build(alloc, soup.pos.len() as u32, &soup.faces) {
            Ok(mesh) => {
                are_near(&soup.pos);
                are_quads(mesh.faces());
                Ok(Meshed { soup, mesh })
            }
            Err(MeshFail::NotManifold(place)) => Err(NoMesh::NotManifold { place, soup }),
            Err(MeshFail::Memory) => Err(NoMesh::Memory),
        }
    }

    /// The soup.
    pub fn soup(&self) -> &Soup
        ensures { result.now ≡ self.now }
    {
        &self.soup
    }

    /// The mesh of its faces.
    pub fn mesh(&self) -> &Mesh
        ensures { result.now ≡ self.now.faces }
    {
        &self.mesh
    }

    /// The mesh of its faces, without the places and the numbers of its vertices.
    pub fn into_mesh(self) -> Mesh
        ensures { result ≡ self.faces }
    {
        self.mesh
    }
}

/// Faces of four corners are quads.
fn are_quads(faces: &[[u32; 4]])
    ensures { AreQuads faces.now }
{}

/// Positions can be written, as their type keeps them.
fn are_near(positions: &[[Micro; 3]])
    ensures { list_all is_position positions.now ≡ true }
{
    for position in positions {
        is_near(position);
    }
}

/// So can each position.
fn is_near(position: &[Micro; 3])
    ensures { is_position position.now ≡ true }
{
    let [x, y, z] = *position;
    are_within(x, y, z);
}

/// Coordinates are within the range.
fn are_within(x: Micro, y: Micro, z: Micro)
    ensures { (is_far x ≡ false) × (is_far y ≡ false) × (is_far z ≡ false) }
{}
