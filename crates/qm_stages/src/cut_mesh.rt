//! A soup with its mesh and the layout of a full cut.

ghost use Rattle.std.specs.Prelude.{◌≡◌, length};
ghost use Rattle.def_layout.specs.Layouts.{layout_of};
ghost use Rattle.def_mesh.specs.Vertices.{vertex_count};
ghost use Rattle.def_remesh.specs.Placings.{IsMeshLayout};

use crate::meshed::Meshed;
use def_layout::TMesh;
use def_text::{Micro, Soup};
use qm_mesh::Mesh;
use std::marker::Model;

/// A mesh, the soup that it was read from, and the layout of a full cut of it. Contracts see the soup and the layout.
#[derive(Drop)]
pub struct CutMesh {
    meshed: Meshed,
    layout: TMesh,
}

impl Model for CutMesh {
    ghost use Rattle.def_layout.specs.Layouts.{layout_of};
    ghost use Rattle.def_remesh.specs.CutSoups.{CutSoup};
    ghost use Rattle.def_remesh.specs.Placings.{IsMeshLayout};

    ghost Value = { CutSoup };

    ghost view = { λ c. record { soup = c.meshed; layout = layout_of c.layout } };

    ghost invariant = { λ c. IsMeshLayout c.meshed.faces (layout_of c.layout) };
}

impl CutMesh {
    /// A mesh with the layout of some full cut of it.
    pub fn new(meshed: Meshed, layout: TMesh) -> CutMesh
        requires { IsMeshLayout meshed.faces (layout_of layout) }
        ensures { result ≡ record { soup = meshed; layout = layout_of layout } }
    {
        CutMesh { meshed, layout }
    }

    /// The soup.
    pub fn soup(&self) -> &Soup
        ensures { result.now ≡ self.now.soup }
    {
        self.meshed.soup()
    }

    /// The mesh.
    pub fn mesh(&self) -> &Mesh
        ensures { result.now ≡ self.now.soup.faces }
    {
        self.meshed.mesh()
    }

    /// The layout.
    pub fn layout(&self) -> &TMesh
        ensures layout { layout_of result.now ≡ self.now.layout }
        ensures laid { IsMeshLayout self.now.soup.faces self.now.layout }
    {
        &self.layout
    }

    /// The position of each vertex of the mesh.
    pub fn pos(&self) -> &[[Micro; 3]]
        ensures value { result.now ≡ self.now.soup.pos }
        ensures each { length result.now ≡ vertex_count self.now.soup.faces }
    {
        let soup = self.meshed.soup();
        &soup.pos
    }

    /// The number of each vertex in the file.
    pub fn names(&self) -> &[u32]
        ensures value { result.now ≡ self.now.soup.names }
        ensures each { length result.now ≡ vertex_count self.now.soup.faces }
    {
        let soup = self.meshed.soup();
        &soup.names
    }
}
