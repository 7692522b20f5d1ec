//! The sums on the sides of the nodes, and searches.

ghost use Rattle.std.specs.Prelude.{◌≡◌, ◌+◌, ◌*◌, ◌^◌, ◌<◌, ◌≤◌, ◌==◌, ℕ, not, length, replicate, slice_index};
ghost use Rattle.std.specs.Prelude.{IfOk, IfSome};
ghost use Rattle.def_math.specs.Searches.{least};
ghost use Rattle.def_math.specs.Tables.{IsRaised};
ghost use Rattle.def_flow.specs.Network.{network};
ghost use Rattle.def_flow.specs.Accepted.{below_fault};
ghost use Rattle.qm_cert.specs.Sides.{arc_put, end_put, AreSides};

use def_flow::{Arc, End};
use qm_net::Lengths;
use std::alloc::{AllocError, Global};

/// For each node the sums of the lengths on both its sides. There are few nodes.
#[derive(Clone, Copy)]
pub(crate) struct Sides<'a> {
    pub plus: &'a [u128],
    pub minus: &'a [u128],
    ghost same: { length plus.now ≡ length minus.now },
    ghost few: { length plus.now < 2 ^ 32 },
}

/// For each node the sum of the lengths at its ends on one side. Linear.
pub(crate) fn side_sums(
    alloc: Global,
    lengths: &Lengths,
    plus: bool,
) -> Result<Vec<u128>, AllocError>
    ensures sides { IfOk result (λ sums.
        AreSides lengths.now.net.whole.now.nodes lengths.now.net.whole.now.arcs.items lengths.now.x.now plus
        (length lengths.now.net.whole.now.arcs.items) sums.items) }
    ensures few { IfOk result (λ sums. length sums.items < 2 ^ 32) }
{
    let mut sums = vec![in alloc; 0u128; lengths.net.whole.nodes as usize]?;
    add_arcs(lengths, plus, &mut sums);
    Ok(sums)
}

/// Adds the lengths of all arcs at those of their ends that are on a side.
fn add_arcs(lengths: &Lengths, plus: bool, sums: &mut [u128])
    requires { sums.old ≡ replicate lengths.now.net.whole.now.nodes 0 }
    ensures { AreSides lengths.now.net.whole.now.nodes lengths.now.net.whole.now.arcs.items lengths.now.x.now plus
        (length lengths.now.net.whole.now.arcs.items) sums.new }
{
    for (k, entry) in lengths.x.iter().enumerate() {
        add_arc(sums, lengths.net.arc(k), *entry, plus);
    }
}

/// Adds the length of an arc at those of its ends that are on a side.
fn add_arc(sums: &mut [u128], arc: &Arc, amount: u64, plus: bool)
    requires left { arc.now.left.node < length sums.old }
    requires right { IfSome arc.now.right (λ e. e.node < length sums.old) }
    requires small { (v : ℕ) → slice_index sums.old v ≤ 2 ^ 100 }
    ensures { IsRaised (arc_put plus arc.now amount) sums.old sums.new }
{
    add_end(sums, &arc.left, amount, plus);
    if let Some(right) = &arc.right {
        add_end(sums, right, amount, plus);
    }
}

/// Adds a length at an end, if this is on the side.
fn add_end(sums: &mut [u128], end: &End, amount: u64, plus: bool)
    requires at { end.now.node < length sums.old }
    requires small { (v : ℕ) → slice_index sums.old v ≤ 2 ^ 101 }
    ensures { IsRaised (end_put plus end.now amount) sums.old sums.new }
{
    if end.plus == plus {
        sums[end.node as usize] += u128::from(amount);
    }
}

/// The least node whose sides have unequal sums.
pub(crate) fn first_difference(sides: &Sides) -> Option<usize>
    ensures least { result
        ≡ least (λ v. not (slice_index sides.now.plus.now v == slice_index sides.now.minus.now v))
        (length sides.now.plus.now) }
    ensures low { IfSome result (λ v. v < length sides.now.plus.now) }
{
    for (v, sum) in sides.plus.iter().enumerate() {
        if *sum != sides.minus[v] {
            return Some(v);
        }
    }
    None
}

/// The least arc that is shorter than its floor.
pub(crate) fn first_below(lengths: &Lengths) -> Option<usize>
    ensures least { result ≡ below_fault (network lengths.now.net.whole.now) lengths.now.x.now }
    ensures low { IfSome result (λ k. k < length lengths.now.x.now) }
{
    for (k, entry) in lengths.x.iter().enumerate() {
        if *entry < u64::from(lengths.net.whole.arcs[k].floor) {
            return Some(k);
        }
    }
    None
}
