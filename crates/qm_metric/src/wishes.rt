//! The same network with other wishes.

ghost use Rattle.std.specs.Prelude.{◌≡◌, ◌<◌, ◌+◌, length, slice_index};
ghost use Rattle.def_flow.specs.Network.{network};
ghost use Rattle.qm_metric.specs.Wishes.{AreWished, HasWishes};

use def_flow::{Arc, Net};

/// The network in which other lengths are wished for. Linear.
pub(crate) fn with_wishes(net: Net, wishes: &[u32]) -> Net
    requires { length wishes.now ≡ length net.arcs.items }
    ensures { HasWishes (network net) (slice_index wishes.now) (network result) }
{
    let mut net = net;
    put_wishes(&mut net.arcs, wishes);
    net
}

/// Wishes for other lengths of the arcs.
fn put_wishes(arcs: &mut [Arc], wishes: &[u32])
    requires { length wishes.now ≡ length arcs.old }
    ensures { AreWished (length arcs.old) (slice_index wishes.now) arcs.old arcs.new }
{
    for (k, wish) in wishes.iter().enumerate() {
        arcs[k].old = *wish;
    }
}
