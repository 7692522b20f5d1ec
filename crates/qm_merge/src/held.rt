//! Arcs that may leave a cut beside marked lines.

ghost use Rattle.std.specs.Prelude.{◌≡◌, ◌<◌, ◌↔◌, true, IsTrue, length};
ghost use Rattle.def_mesh.specs.Darts.{darts, from_of};
ghost use Rattle.def_mesh.specs.HalfEdges.{half_edges};
ghost use Rattle.def_mesh.specs.Vertices.{vertex_count};
ghost use Rattle.def_cut.specs.Cuts.{HasCross};
ghost use Rattle.def_cut.specs.FullCut.{is_on};
ghost use Rattle.def_merge.specs.Beside.{may_beside};
ghost use Rattle.qm_merge.specs.Beside.{IsBeside, IsEndOpen};
ghost use Rattle.qm_merge.specs.Seams.{IsSeam};

use crate::seams::Place;
use qm_grid::Cutting;

/// Whether the joinable arc there may leave: it is not marked, and where lines break at its ends a corner stays.
#[tactic(auto, using(crate::proofs::Rejoined::breaks_long, crate::proofs::Rejoined::crossed_there))]
pub(crate) fn may_leave(cut: &Cutting, marks: &[bool], breaks: &[bool], place: Place) -> bool
    requires beside { IsBeside cut.now.faces marks.now breaks.now cut.now.marks }
    requires seam { IsSeam (half_edges cut.now.faces) (is_on cut.now.marks) place.start place.seam }
    ensures { IsTrue result
        ↔ (may_beside cut.now.faces marks.now cut.now.marks place.start place.seam.far place.seam.long ≡ true) }
{
    cut.is_full();
    if marks[place.start as usize] {
        return false;
    }
    if !is_end_free(cut, breaks, place.start, place.seam.far) {
        return false;
    }
    is_end_free(cut, breaks, place.seam.far, place.start)
}

/// Whether lines do not break at the end s of an arc, or the edge opposite to s is cut and is not the other end.
fn is_end_free(cut: &Cutting, breaks: &[bool], s: u32, t: u32) -> bool
    requires long { length breaks.now ≡ vertex_count cut.now.faces }
    requires dart { s < darts cut.now.faces }
    requires crossed { is_on breaks.now (from_of cut.now.faces s) ≡ true → HasCross (half_edges cut.now.faces) s }
    ensures { IsTrue result ↔ IsEndOpen cut.now.faces breaks.now cut.now.marks s t }
{
    if !breaks[cut.from(s) as usize] {
        return true;
    }
    let left = cut.twin(cut.prev(s)).unwrap();
    let opposite = cut.twin(cut.prev(left)).unwrap();
    cut.is_cut(opposite) && opposite != t
}
