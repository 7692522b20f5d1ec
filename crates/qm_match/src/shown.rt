//! Matchings that first weights show to be least, so that nothing has to be searched.

ghost use Rattle.std.specs.Prelude.{◌≡◌, ◌*ℤ◌, ◌^◌, ◌≤◌, pos, length, unsigned_abs, IfOk};
ghost use Rattle.std.specs.Prelude.{IfSome, true};
ghost use Rattle.def_math.specs.Increasing.{IsIncreasing};
ghost use Rattle.def_matching.specs.Matching.{matching_cost, IsPerfect};
ghost use Rattle.def_matching.specs.Dual.{dual, verdict, AreSmall, IsSmallDual};

use crate::Memory;
use def_matching::{Dual, Verdict, WEdge};
use qm_dual::{SmallGraph, dual_ok};
use std::alloc::Global;

/// The dual of given numbers and no sets, where it shows a perfect matching to be least. Linear in the graph.
pub(crate) fn shown_by(
    alloc: Global,
    g: &SmallGraph,
    known: &[u32],
    y: &[i64],
) -> Result<Option<Dual>, Memory>
    requires known { IsPerfect g.now.graph known.now }
    requires long { length y.now ≡ g.now.graph.n }
    requires small { AreSmall y.now }
    ensures small { IfOk result (λ found. IfSome found (λ d. IsSmallDual (dual d))) }
    ensures least { IfOk result (λ found. IfSome found (λ d. verdict g.now.graph (dual d)
        ≡ Verdict.Yes (pos 2 *ℤ matching_cost g.now.graph known.now))) }
{
    if !known.iter().all(|e| is_tight(g, y, *e)) {
        return Ok(None);
    }
    let dual = Dual {
        y: Vec::from_slice(alloc, y)?,
        z: Vec::new(alloc),
        up: vec![in alloc; 0u32; y.len()]?,
    };
    let cost = cost_of(g, known);
    match dual_ok(alloc, g, &dual)? {
        Verdict::Yes { sum } if is_twice(sum, cost) => Ok(Some(dual)),
        _ => Ok(None),
    }
}

/// Whether a sum is twice a cost.
fn is_twice(sum: i128, cost: i128) -> bool
    requires { unsigned_abs cost ≤ 2 ^ 93 }
    ensures { result ≡ true → sum ≡ (pos 2 *ℤ cost) }
{
    sum == 2 * cost
}

/// Whether an edge has as much at its ends as twice its cost.
fn is_tight(g: &SmallGraph, y: &[i64], e: u32) -> bool {
    if e >= g.edge_count() {
        return false;
    }
    let WEdge { u, v, cost } = g.edge(e);
    let (Some(a), Some(b)) = (y.get(u as usize), y.get(v as usize)) else {
        return false;
    };
    i128::from(*a) + i128::from(*b) == 2 * i128::from(cost)
}

/// The cost of a matching. Linear in its edges.
#[tactic(auto, using(crate::proofs::Outcomes::increasing_low))]
pub fn cost_of(g: &SmallGraph, matching: &[u32]) -> i128
    requires increasing { IsIncreasing 0 (length g.now.graph.edges) matching.now }
    ensures value { result ≡ matching_cost g.now.graph matching.now }
    ensures small { unsigned_abs result ≤ 2 ^ 93 }
{
    let mut cost = 0i128;
    for edge in matching {
        cost += i128::from(g.edge(*edge).cost);
    }
    cost
}
