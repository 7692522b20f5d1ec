//! One row of cells, from a cut edge in the west to the first one in the east.

ghost use Rattle.std.specs.Prelude.{◌≡◌, ◌<◌, ◌++◌, true, IfOk};
ghost use Rattle.def_mesh.specs.Darts.{darts, prev_of};
ghost use Rattle.def_mesh.specs.HalfEdges.{half_edges};
ghost use Rattle.def_cut.specs.FullCut.{is_on};
ghost use Rattle.cut_laws.specs.Grown.{IsRow};
ghost use Rattle.qm_grid.specs.Cells.{row_list};

use crate::cutting::Cutting;
use std::alloc::AllocError;

/// Puts the cells of the row that begins at `start` to the end of `cells`, and gives their number.
pub(crate) fn push_row(cut: &Cutting, start: u32, cells: &mut Vec<u32>) -> Result<u32, AllocError>
    requires dart { start < darts cut.now.faces }
    requires west { is_on cut.now.marks (prev_of start) ≡ true }
    ensures row { IfOk result (λ w. IsRow (half_edges cut.now.faces) (is_on cut.now.marks) start w) }
    ensures cells { IfOk result (λ w.
        cells.new.items ≡ cells.old.items ++ row_list (half_edges cut.now.faces) start w) }
{
    cut.is_full();
    let mut d = start;
    for i in 0..cut.darts() + 1 {
        cells.push(d)?;
        if cut.is_cut(cut.next(d)) {
            return Ok(i + 1);
        }
        d = cut.east(d);
    }
    unreachable!()
}
