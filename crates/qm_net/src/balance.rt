//! Whether a list is admissible.

ghost use Rattle.std.specs.Prelude.{◌≡◌, ◌+◌, ◌*◌, ◌^◌, ◌≤◌, ◌↔◌, IsTrue, ℕ, pos, slice_index_or};
ghost use Rattle.std.specs.Prelude.{unsigned_abs};
ghost use Rattle.std.specs.Ordering.{int_eq};
ghost use Rattle.std.specs.List.{list_all};
ghost use Rattle.def_flow.specs.Network.{network, IsWithinBounds};
ghost use Rattle.def_flow.specs.Admissible.{entries, IsAdmissible, IsBalanced};
ghost use Rattle.qm_net.specs.Balance.{signed, weighed, weighed_arc, AreHigh, IsBlockBalanced};
ghost use Rattle.def_flow.specs.Admissible.{AreNetLengths};

use crate::bounded::{BoundedNet, Lengths};
use def_flow::{Arc, End, Net};

/// How many nodes are looked at in one pass over the arcs.
const BLOCK: usize = 2048;

/// Whether each length is at least the floor of its arc, and both sides of each node have equal sums.
///
/// It takes no memory, so it goes over the arcs once for each block of 2048 nodes.
pub fn admissible(net: &Net, x: &[u64]) -> bool
    requires bounds { IsWithinBounds (network net.now) }
    requires lengths { AreNetLengths net.now.arcs.items x.now }
    ensures { IsTrue result ↔ IsAdmissible (network net.now) (entries x.now) }
{
    let lengths = Lengths {
        net: BoundedNet { whole: net },
        x,
    };
    are_high(&lengths) && are_balanced(&lengths)
}

/// Whether each length is at least the floor of its arc.
fn are_high(lengths: &Lengths) -> bool
    ensures { IsTrue result ↔ AreHigh lengths.now.net.whole.now.arcs.items lengths.now.x.now }
{
    for (k, entry) in lengths.x.iter().enumerate() {
        if *entry < u64::from(lengths.net.whole.arcs[k].floor) {
            return false;
        }
    }
    true
}

/// Whether both sides of each node have equal sums.
fn are_balanced(lengths: &Lengths) -> bool
    ensures { IsTrue result ↔ IsBalanced lengths.now.net.whole.now.arcs.items (entries lengths.now.x.now) }
{
    let nodes = lengths.net.whole.nodes as usize;
    let mut first = 0;
    while first < nodes {
        if !is_block_balanced(lengths, first) {
            return false;
        }
        first += BLOCK;
    }
    true
}

/// Whether both sides of each node of a block have equal sums.
#[tactic(auto, using(crate::proofs::Balances::balances_more))]
fn is_block_balanced(lengths: &Lengths, first: usize) -> bool
    ensures { IsTrue result
        ↔ IsBlockBalanced lengths.now.net.whole.now.arcs.items lengths.now.x.now first (first + 2048) }
{
    let mut balances = [0i128; BLOCK];
    for (k, entry) in lengths.x.iter().enumerate() {
        weigh_arc(first, lengths.net.arc(k), *entry, &mut balances);
    }
    are_zero(&balances)
}

/// Whether each number is 0.
fn are_zero(numbers: &[i128]) -> bool
    ensures { result ≡ list_all (λ z. int_eq z (pos 0)) numbers.now }
{
    numbers.iter().all(|number| *number == 0)
}

/// Weighs the length of an arc at those of its ends that are in a block.
fn weigh_arc(first: usize, arc: &Arc, length: u64, balances: &mut [i128])
    requires { (j : ℕ) → unsigned_abs (slice_index_or balances.old j (pos 0)) ≤ 2 ^ 100 }
    ensures { balances.new ≡ weighed_arc first arc.now length balances.old }
{
    weigh(first, &arc.left, length, balances);
    if let Some(right) = &arc.right {
        weigh(first, right, length, balances);
    }
}

/// Weighs a length at an end, if its node is in a block: it counts up on the plus side, and down on the minus side.
fn weigh(first: usize, end: &End, length: u64, balances: &mut [i128])
    requires { (j : ℕ) → unsigned_abs (slice_index_or balances.old j (pos 0)) ≤ 2 ^ 101 }
    ensures { balances.new ≡ weighed first end.now length balances.old }
{
    let node = end.node as usize;
    if first <= node && node - first < balances.len() {
        balances[node - first] += with_sign(end.plus, length);
    }
}

/// A length, or its negative on the minus side.
fn with_sign(plus: bool, length: u64) -> i128
    ensures { result ≡ signed plus length }
{
    if plus {
        i128::from(length)
    } else {
        -i128::from(length)
    }
}
