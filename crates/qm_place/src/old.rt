//! The old mesh, from which places are computed.

ghost use Rattle.std.specs.Prelude.{◌≡◌, length};
ghost use Rattle.def_mesh.specs.Vertices.{vertex_count};

use def_text::Micro;
use qm_mesh::Mesh;

/// A mesh, and a position for each of its vertices.
#[derive(Clone, Copy)]
pub(crate) struct OldMesh<'a> {
    pub mesh: &'a Mesh,
    pub pos: &'a [[Micro; 3]],
    ghost positions: { length pos.now ≡ vertex_count mesh.now },
}
