//! The patches, by their least faces.

ghost use Rattle.std.specs.Prelude.{◌≡◌, ◌<◌, ℕ, length, false, map, IfOk, slice_index, replicate};
ghost use Rattle.def_mesh.specs.HalfEdges.{half_edges};
ghost use Rattle.def_cut.specs.FullCut.{is_on, IsFullCut};
ghost use Rattle.def_cut.specs.Grids.{rectangle, IsPartition};
ghost use Rattle.def_cut.specs.Steps.{face_of};
ghost use Rattle.qm_grid.specs.Heads.{IsHead};

use crate::Memory;
use crate::cutting::Cutting;
use crate::grid::grid;
use crate::heads::heads;
use crate::marks::mark;
use def_cut::{Graph, Patch};
use qm_mesh::Mesh;
use std::alloc::{AllocError, Global};

/// The rectangular patches of a full cut, in order of their least faces. Linear in the faces.
pub fn patches(alloc: Global, mesh: &Mesh, graph: &Graph) -> Result<Vec<Patch>, Memory>
    requires cut { IsFullCut mesh.now graph.now.covered.items }
    ensures patches { IfOk result (λ ps.
        IsPartition (half_edges mesh.now) (is_on graph.now.covered.items) face_of (map rectangle ps.items)) }
{
    let faces = mesh.faces().len();
    let cut = Cutting::new(mesh, &graph.covered);
    let mut seen = vec![in alloc; false; faces]?;
    let heads = heads(alloc, &cut)?;
    in_order(alloc, &cut, &heads, &mut seen)
}

/// The grid of each face that no grid before holds.
fn in_order(
    alloc: Global,
    cut: &Cutting,
    heads: &[u32],
    seen: &mut [bool],
) -> Result<Vec<Patch>, AllocError>
    requires long { length heads.now ≡ length cut.now.faces }
    requires heads { (f : ℕ) → f < length cut.now.faces
        → IsHead cut.now.faces cut.now.marks f (slice_index heads.now f) }
    requires unseen { seen.old ≡ replicate (length cut.now.faces) false }
    ensures patches { IfOk result (λ ps.
        IsPartition (half_edges cut.now.faces) (is_on cut.now.marks) face_of (map rectangle ps.items)) }
{
    cut.is_full();
    let mut found = Vec::new(alloc);
    for (f, head) in heads.iter().enumerate() {
        if !seen[f] {
            let patch = grid(alloc, cut, *head)?;
            mark(&patch.cells, seen);
            found.push(patch)?;
        }
    }
    Ok(found)
}
