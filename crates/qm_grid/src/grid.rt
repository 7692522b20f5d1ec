//! The grid that grows from a corner, row by row.

ghost use Rattle.std.specs.Prelude.{◌≡◌, IfOk};
ghost use Rattle.def_mesh.specs.HalfEdges.{half_edges};
ghost use Rattle.def_cut.specs.Cuts.{IsCorner};
ghost use Rattle.def_cut.specs.FullCut.{is_on};
ghost use Rattle.cut_laws.specs.Grown.{IsGrown};
ghost use Rattle.qm_grid.specs.Cells.{grid_list};

use crate::cutting::Cutting;
use crate::row::push_row;
use def_cut::Patch;
use std::alloc::{AllocError, Global};

/// The grid of the class of faces that has this corner. Linear in its cells.
pub(crate) fn grid(alloc: Global, cut: &Cutting, corner: u32) -> Result<Patch, AllocError>
    requires corner { IsCorner (half_edges cut.now.faces) (is_on cut.now.marks) corner }
    ensures grown { IfOk result (λ p. IsGrown (half_edges cut.now.faces) (is_on cut.now.marks) corner p.w p.h) }
    ensures cells { IfOk result (λ p. p.cells.items ≡ grid_list (half_edges cut.now.faces) corner p.w p.h) }
{
    cut.is_full();
    let mut cells = Vec::new(alloc);
    let mut start = corner;
    for h in 0..cut.darts() + 1 {
        let w = push_row(cut, start, &mut cells)?;
        if cut.is_cut(cut.next(cut.next(start))) {
            return Ok(Patch { w, h: h + 1, cells });
        }
        start = cut.north(start);
    }
    unreachable!()
}
