//! The arcs of a network get their ends from the sides of patches.

ghost use Rattle.std.specs.Prelude.{◌≡◌, ◌<◌, ◌*◌, ℕ, length};
ghost use Rattle.std.specs.List.{All};
ghost use Rattle.def_layout.specs.declared.tmesh.SideArc.{SideArc as Used};
ghost use Rattle.qm_layoutnet.specs.Ends.{with_end, with_ends};

use def_flow::{Arc, End};
use def_layout::SideArc;

/// Puts an end of each use of a side on its arc. Linear in the uses.
pub(crate) fn put_ends(arcs: &mut [Arc], side: &[SideArc], end: End)
    requires { All (λ (used : Used). used.arc < length arcs.old) side.now }
    ensures { arcs.new ≡ with_ends end side.now arcs.old }
{
    for used in side {
        put_end(arcs, *used, end);
    }
}

/// Puts an end on the arc of a use: on its left where the use goes along it, else on its right.
fn put_end(arcs: &mut [Arc], used: SideArc, end: End)
    requires { used.arc < length arcs.old }
    ensures { arcs.new ≡ with_end end used arcs.old }
{
    let arc = &mut arcs[used.arc as usize];
    if used.forward {
        arc.left = end;
    } else {
        arc.right = Some(end);
    }
}
