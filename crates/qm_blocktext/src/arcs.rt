//! The arcs around a block.

ghost use Rattle.std.specs.Prelude.{◌≡◌, slice_get};
ghost use Rattle.qm_blocktext.specs.Gridded.{arcs_of};

use def_layout::Side;

/// The arc of a link: the one at this place, side after side, if there is one. In constant time.
#[tactic(auto, using(crate::proofs::Rounds::arc_here))]
pub(crate) fn arc_at(sides: &[Side], at: usize) -> Option<u32>
    ensures { result ≡ slice_get (arcs_of sides.now) at }
{
    let mut left = at;
    for side in sides {
        if left < side.arcs.len() {
            return Some(side.arcs[left].arc);
        }
        left -= side.arcs.len();
    }
    None
}
