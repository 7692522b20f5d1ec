//! The bounds of networks and of lists of lengths.

ghost use Rattle.std.specs.Prelude.{◌≡◌, ◌↔◌, ◌&&◌, IsTrue, nat_le};
ghost use Rattle.std.specs.List.{list_all};
ghost use Rattle.def_flow.specs.Network.{network, is_bounded, IsWithinBounds};
ghost use Rattle.def_flow.specs.Admissible.{AreNetLengths};

use def_flow::{Arc, MAX_FLOOR, MAX_LENGTH, MAX_OLD, MAX_SCALE, MAX_WEIGHT, Net};

/// Whether a network is within bounds, as each call over a network asks. Linear.
pub fn is_within_bounds(net: &Net) -> bool
    ensures { IsTrue result ↔ IsWithinBounds (network net.now) }
{
    is_from_one(net.p, MAX_SCALE)
        && is_from_one(net.q, MAX_SCALE)
        && net.arcs.len() < 4_294_967_296
        && are_bounded(net.nodes, &net.arcs)
}

/// Whether a number is from 1 to the most.
fn is_from_one(number: u32, most: u32) -> bool
    ensures { result ≡ (nat_le 1 number && nat_le number most) }
{
    1 <= number && number <= most
}

/// Whether each arc is within bounds.
fn are_bounded(nodes: u32, arcs: &[Arc]) -> bool
    ensures { result ≡ list_all (is_bounded nodes) arcs.now }
{
    arcs.iter().all(|arc| is_bounded_arc(nodes, arc))
}

/// Whether an arc is within bounds, with its ends at nodes.
fn is_bounded_arc(nodes: u32, arc: &Arc) -> bool
    ensures { result ≡ is_bounded nodes arc.now }
{
    let bounded = arc.weight >= 1
        && arc.weight <= MAX_WEIGHT
        && arc.old <= MAX_OLD
        && is_from_one(arc.floor, MAX_FLOOR);
    match &arc.right {
        None => bounded && arc.left.node < nodes,
        Some(right) => bounded && (arc.left.node < nodes && right.node < nodes),
    }
}

/// Whether there is one length for each arc, none above 10^12. Linear.
pub fn are_lengths(net: &Net, x: &[u64]) -> bool
    ensures { IsTrue result ↔ AreNetLengths net.now.arcs.items x.now }
{
    x.len() == net.arcs.len() && x.iter().all(|length| *length <= MAX_LENGTH)
}
