//! What stops riders at vertices, looked up once.

ghost use Rattle.std.specs.Prelude.{◌≡◌, ◌<◌, length, IfOk};
ghost use Rattle.def_mesh.specs.Kinds.{is_singular as is_singular_at};
ghost use Rattle.def_mesh.specs.Vertices.{vertex_count};
ghost use Rattle.qm_trace.specs.Tables.{IsGround, IsSite};

use crate::Memory;
use qm_mesh::Mesh;
use std::alloc::Global;

/// Of each vertex, whether it lies at the boundary and whether it is singular.
#[derive(Debug, Drop)]
pub(crate) struct Ground {
    pub(crate) boundary: Vec<bool>,
    pub(crate) singular: Vec<bool>,
}

/// What stops a rider at one vertex: that it lies at the boundary, that it is singular, or that one has stood there.
#[derive(Clone, Copy, Debug)]
pub(crate) struct Site {
    pub(crate) boundary: bool,
    pub(crate) singular: bool,
    pub(crate) stood: bool,
}

/// What stops a rider at v. Linear in the faces at v.
pub(crate) fn site_at(mesh: &Mesh, stood: bool, v: u32) -> Site
    requires { v < vertex_count mesh.now }
    ensures { IsSite mesh.now stood v result }
{
    Site {
        boundary: !mesh.is_inner(v),
        singular: is_singular(mesh, v),
        stood,
    }
}

/// The ground of a mesh. Linear in the darts.
pub(crate) fn ground_of(alloc: Global, mesh: &Mesh) -> Result<Ground, Memory>
    ensures { IfOk result (λ g. IsGround mesh.now g.boundary.items g.singular.items) }
{
    let vertices = mesh.vertices();
    let mut boundary = Vec::with_capacity(alloc, vertices as usize)?;
    let mut singular = Vec::with_capacity(alloc, vertices as usize)?;
    for v in 0..vertices {
        boundary.push(!mesh.is_inner(v))?;
        singular.push(is_singular(mesh, v))?;
    }
    Ok(Ground { boundary, singular })
}

/// Whether v is inner, but not with four faces.
fn is_singular(mesh: &Mesh, v: u32) -> bool
    requires { v < vertex_count mesh.now }
    ensures { result ≡ is_singular_at mesh.now v }
{
    mesh.is_inner(v) && mesh.faces_at(v) != 4
}
