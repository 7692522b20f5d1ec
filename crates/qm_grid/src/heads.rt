//! The least corner of the class of each face. Corners are met in increasing order, so the first of a class is least.

ghost use Rattle.std.specs.Prelude.{◌≡◌, ◌+◌, ◌<◌, ℕ, length, IfOk, OnOk, slice_index, replicate};
ghost use Rattle.def_mesh.specs.Darts.{darts};
ghost use Rattle.qm_grid.specs.Heads.{IsHead, AreHeadsSoFar};

use crate::cutting::Cutting;
use crate::grid::grid;
use crate::marks::set_heads;
use std::alloc::{AllocError, Global};

/// For each face the least corner of its class. Linear in the faces.
pub(crate) fn heads(alloc: Global, cut: &Cutting) -> Result<Vec<u32>, AllocError>
    ensures long { IfOk result (λ hs. length hs.items ≡ length cut.now.faces) }
    ensures heads { IfOk result (λ hs.
        (f : ℕ) → f < length cut.now.faces → IsHead cut.now.faces cut.now.marks f (slice_index hs.items f)) }
{
    let mut heads = vec![in alloc; cut.darts(); cut.faces()]?;
    fill_heads(alloc, cut, &mut heads)?;
    Ok(heads)
}

fn fill_heads(alloc: Global, cut: &Cutting, heads: &mut [u32]) -> Result<(), AllocError>
    requires none { heads.old ≡ replicate (length cut.now.faces) (length cut.now.marks) }
    ensures heads { OnOk result ((f : ℕ)
        → f < length cut.now.faces → IsHead cut.now.faces cut.now.marks f (slice_index heads.new f)) }
{
    cut.is_full();
    for d in 0..cut.darts() {
        lay_head(alloc, cut, d, heads)?;
    }
    Ok(())
}

/// Where d is a corner of a class without a head, makes it the head of the faces of the class.
fn lay_head(alloc: Global, cut: &Cutting, d: u32, heads: &mut [u32]) -> Result<(), AllocError>
    requires dart { d < darts cut.now.faces }
    requires so_far { AreHeadsSoFar cut.now.faces cut.now.marks d heads.old }
    ensures more { OnOk result (AreHeadsSoFar cut.now.faces cut.now.marks (d + 1) heads.new) }
{
    cut.is_full();
    if !cut.is_corner(d) || heads[(d / 4) as usize] != cut.darts() {
        return Ok(());
    }
    let patch = grid(alloc, cut, d)?;
    set_heads(&patch.cells, d, heads);
    Ok(())
}
