//! The tangle number.

ghost use Rattle.std.specs.Prelude.{◌≡◌, ◌+◌, ◌*◌, ◌^◌, ◌<◌, ◌≤◌, ℕ, length, slice_index, replicate, IfOk};
ghost use Rattle.def_math.specs.Tables.{at_place, IsRaised, IsTally};
ghost use Rattle.def_flow.specs.Network.{network, degree, tangle_number};
ghost use Rattle.qm_net.specs.Degrees.{ends_at, HasEndsBelow};

use crate::Memory;
use crate::bounded::BoundedNet;
use def_flow::{Arc, End};
use std::alloc::Global;

/// How many ends there are at each node of a network. There are few nodes.
#[derive(Drop)]
struct Degrees<'a> {
    net: BoundedNet<'a>,
    at: Vec<u64>,
    ghost tally: { IsTally (degree net.whole.now.arcs.items) net.whole.now.nodes at.items },
    ghost few: { length at.items < 2 ^ 32 },
}

/// The tangle number of a network: 16 times the square of the number of ends, over all nodes. Linear.
pub fn tangle_of(alloc: Global, net: &BoundedNet) -> Result<u128, Memory>
    ensures { IfOk result (λ tangle. tangle ≡ tangle_number (network net.now.whole.now)) }
{
    let mut at = vec![in alloc; 0u64; net.whole.nodes as usize]?;
    count_ends(net, &mut at);
    let degrees = Degrees { net: *net, at };
    Ok(sum_of_squares(&degrees))
}

/// Counts the ends at each node.
fn count_ends(net: &BoundedNet, degrees: &mut [u64])
    requires { degrees.old ≡ replicate net.now.whole.now.nodes 0 }
    ensures { IsTally (degree net.now.whole.now.arcs.items) net.now.whole.now.nodes degrees.new }
{
    for arc in &net.whole.arcs {
        count_arc(arc, degrees);
    }
}

/// Counts the ends of an arc.
fn count_arc(arc: &Arc, degrees: &mut [u64])
    requires small { (v : ℕ) → slice_index degrees.old v ≤ 2 ^ 33 }
    requires at { HasEndsBelow (length degrees.old) arc.now }
    ensures { IsRaised (ends_at arc.now) degrees.old degrees.new }
{
    count_end(&arc.left, degrees);
    if let Some(right) = &arc.right {
        count_end(right, degrees);
    }
}

/// Counts an end.
#[tactic(auto, using(table_laws::proofs::Tallies::raised_at))]
fn count_end(end: &End, degrees: &mut [u64])
    requires small { (v : ℕ) → slice_index degrees.old v ≤ 2 ^ 33 + 1 }
    requires at { end.now.node < length degrees.old }
    ensures { IsRaised (at_place end.now.node 1) degrees.old degrees.new }
{
    degrees[end.node as usize] += 1;
}

/// 16 times the square of each number, summed.
fn sum_of_squares(degrees: &Degrees) -> u128
    ensures { result ≡ tangle_number (network degrees.now.net.whole.now) }
{
    let mut total = 0u128;
    for degree in &degrees.at {
        total += square_of(*degree);
    }
    total
}

/// 16 times the square of a number.
fn square_of(degree: u64) -> u128
    requires { degree ≤ 2 ^ 34 }
    ensures value { result ≡ 16 * (degree * degree) }
    ensures small { result ≤ 2 ^ 72 }
{
    16 * (u128::from(degree) * u128::from(degree))
}
