//! The kind of a vertex, and Euler's number.

ghost use Rattle.std.specs.Prelude.{◌≡◌, ◌<◌, ◌*◌, Ok};
ghost use Rattle.def_mesh.specs.Components.{edge_count, euler as euler_of, is_lesser};
ghost use Rattle.def_mesh.specs.Darts.{darts, twin_of};
ghost use Rattle.def_mesh.specs.Kinds.{kind_of};
ghost use Rattle.def_mesh.specs.Vertices.{vertex_count};

use crate::Memory;
use def_mesh::Kind;
use qm_mesh::Mesh;
use std::alloc::Global;

/// The kind of v. Linear in the faces at v.
pub fn classify(mesh: &Mesh, v: u32) -> Kind
    requires { v < vertex_count mesh.now }
    ensures { result ≡ kind_of mesh.now v }
{
    let faces = mesh.faces_at(v);
    let inner = mesh.is_inner(v);
    let regular = if inner { 4 } else { 2 };
    if faces == regular {
        Kind::Regular
    } else if inner {
        Kind::Singular
    } else if faces == 1 {
        Kind::Corner
    } else {
        Kind::Reflex
    }
}

/// Vertices minus edges plus faces. It takes no memory. Linear in the darts.
pub fn euler(_alloc: Global, mesh: &Mesh) -> Result<i64, Memory>
    ensures { result ≡ Ok (euler_of mesh.now) }
{
    let faces = mesh.faces().len() as i64;
    Ok(mesh.vertices() as i64 - edge_count(mesh) as i64 + faces)
}

/// How many edges there are. Linear in the darts.
#[tactic(auto, using(crate::proofs::Floods::filter_few))]
pub fn edge_count(mesh: &Mesh) -> u32
    ensures { result ≡ edge_count mesh.now }
{
    let mut edges = 0;
    for d in 0..4 * mesh.faces().len() as u32 {
        if is_lesser_dart(mesh, d) {
            edges += 1;
        }
    }
    edges
}

/// Whether d is the lesser dart of its edge, or the only one.
fn is_lesser_dart(mesh: &Mesh, d: u32) -> bool
    requires { d < darts mesh.now }
    ensures { result ≡ is_lesser d (twin_of mesh.now d) }
{
    match mesh.twin(d) {
        None => true,
        Some(twin) => d < twin,
    }
}
