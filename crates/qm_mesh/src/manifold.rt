//! From a list of faces to a mesh, or to the least place where the list is no manifold.

ghost use Rattle.std.specs.Prelude.{◌≡◌, ◌≢◌, ◌≤◌, length, IsTrue, OnOk, IfOk, IfErr, IsErrOf};
ghost use Rattle.def_mesh.specs.Faults.{IsFirstFault};
ghost use Rattle.def_mesh.specs.Manifold.{IsManifold};
ghost use Rattle.def_mesh.specs.Vertices.{names_below, UsesEach};
ghost use Rattle.def_mesh.specs.declared.Place.{Place};
ghost use Rattle.qm_mesh.specs.Refusals.{IsRefusal};

use crate::fail::MeshFail;
use crate::fans::gather;
use crate::mesh::Mesh;
use crate::one_fan::check_fans;
use crate::quads::Quads;
use crate::repeats::check_repeats;
use crate::twins::pair;
use def_mesh::MAX_FACES;
use std::alloc::Global;

/// The mesh of these faces. Linear in faces and vertices, however many faces there are at one vertex.
#[tactic(auto, using(crate::proofs::Corners::refused_result))]
pub fn build(alloc: Global, vertices: u32, faces: &[[u32; 4]]) -> Result<Mesh, MeshFail>
    requires few { length faces.now ≤ MAX_FACES }
    requires within { IsTrue (names_below vertices faces.now) }
    requires used { UsesEach vertices faces.now }
    ensures mesh { IfOk result (λ m. m ≡ faces.now) }
    ensures manifold { OnOk result (IsManifold faces.now) }
    ensures place { (p : Place) → IsErrOf result (MeshFail.NotManifold p) → IsFirstFault faces.now p }
    ensures no_manifold { IfErr result (λ e. e ≢ MeshFail.Memory → ¬ IsManifold faces.now) }
{
    checked_mesh(alloc, &Quads { vertices, faces })
}

/// The same, with the reason of each refusal.
fn checked_mesh(alloc: Global, quads: &Quads) -> Result<Mesh, MeshFail>
    ensures mesh { IfOk result (λ m. m ≡ quads.now.faces.now) }
    ensures manifold { OnOk result (IsManifold quads.now.faces.now) }
    ensures refusal { IfErr result (IsRefusal quads.now.faces.now) }
{
    check_repeats(quads)?;
    let fans = gather(alloc, quads)?;
    let twins = pair(alloc, quads, &fans)?;
    check_fans(alloc, quads.faces, &fans, &twins)?;
    let mesh = Mesh::from_tables(alloc, quads.faces, twins, fans)?;
    Ok(mesh)
}
