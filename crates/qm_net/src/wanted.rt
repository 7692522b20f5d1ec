//! How far a list is from what is wanted.

ghost use Rattle.std.specs.Prelude.{◌≡◌, ◌+◌, ◌*◌, ◌^◌, ◌<◌, ◌≤◌, pos, length};
ghost use Rattle.def_flow.specs.Network.{arc_at, network, IsWithinBounds};
ghost use Rattle.def_flow.specs.Admissible.{entries};
ghost use Rattle.def_flow.specs.Admissible.{deviation as total_deviation, arc_deviation as deviation_of_arc};
ghost use Rattle.def_flow.specs.Admissible.{AreNetLengths};

use crate::bounded::BoundedNet;
use def_flow::Net;

/// How far a list of lengths is from what is wanted: the sum over the arcs of `weight * |q * x - p * old|`. Linear.
pub fn deviation(net: &Net, x: &[u64]) -> i128
    requires bounds { IsWithinBounds (network net.now) }
    requires lengths { AreNetLengths net.now.arcs.items x.now }
    ensures { result ≡ pos (total_deviation (network net.now) (entries x.now)) }
{
    let mut all = 0u128;
    let bounded = BoundedNet { whole: net };
    for (k, entry) in x.iter().enumerate() {
        all += u128::from(arc_deviation(&bounded, k, *entry));
    }
    all as i128
}

/// How far an arc of this length is from what is wanted.
pub fn arc_deviation(net: &BoundedNet, k: usize, entry: u64) -> u64
    requires arc { k < length net.now.whole.now.arcs.items }
    requires small { entry ≤ 10 ^ 13 }
    ensures value { result
        ≡ deviation_of_arc (network net.now.whole.now) (arc_at net.now.whole.now.arcs.items k) (pos entry) }
    ensures small { result ≤ 10 ^ 6 * entry + 4 * 10 ^ 15 }
{
    let arc = net.arc(k);
    let wanted = u64::from(net.whole.p) * u64::from(arc.old);
    u64::from(arc.weight) * (u64::from(net.whole.q) * entry).abs_diff(wanted)
}
