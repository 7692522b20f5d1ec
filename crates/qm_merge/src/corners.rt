//! The sides of patches, found by walks from their corners.

ghost use Rattle.std.specs.Prelude.{◌≡◌, ◌-◌};
ghost use Rattle.def_mesh.specs.Darts.{next_of};
ghost use Rattle.def_mesh.specs.HalfEdges.{half_edges};
ghost use Rattle.def_cut.specs.Cuts.{IsCorner};
ghost use Rattle.def_cut.specs.FullCut.{is_on};
ghost use Rattle.def_cut.specs.Steps.{easts};
ghost use Rattle.def_merge.specs.Joins.{IsWholeSide};

use qm_grid::Cutting;

/// A side of a patch: the corner where it ends, and how many edges it has.
#[derive(Clone, Copy, Debug, PartialEq, Eq)]
pub(crate) struct Side {
    pub(crate) next: u32,
    pub(crate) long: u32,
}

/// The side from a corner. Linear in it.
#[tactic(auto, using(crate::proofs::Rounds::near_done))]
pub(crate) fn side_from(cut: &Cutting, corner: u32) -> Side
    requires corner { IsCorner (half_edges cut.now.faces) (is_on cut.now.marks) corner }
    ensures whole { IsWholeSide (half_edges cut.now.faces) (is_on cut.now.marks) corner result.long }
    ensures next { result.next ≡ next_of (easts (half_edges cut.now.faces) corner (result.long - 1)) }
{
    cut.is_full();
    let mut d = corner;
    for n in 0..cut.darts() + 1 {
        let after = cut.next(d);
        if cut.is_cut(after) {
            return Side {
                next: after,
                long: n + 1,
            };
        }
        d = cut.east(d);
    }
    unreachable!()
}
