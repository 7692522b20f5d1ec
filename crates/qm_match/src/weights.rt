//! The first weights: the least costs, each raised as far as the edges at its vertex allow.

ghost use Rattle.std.specs.Prelude.{◌≡◌, ◌*◌, ◌^◌, ◌<◌, ◌≤◌, ◌-ℤ◌, ◌*ℤ◌, ℕ, pos, length, unsigned_abs, IfOk};
ghost use Rattle.def_forest.specs.Made.{AreCostsBelow};
ghost use Rattle.qm_match.specs.Fans.{AreFans};
ghost use Rattle.qm_match.specs.Weights.{left_to, IsRoom, HaveRoom, MayRise, MayRiseAt};

use crate::Memory;
use crate::fans::Fans;
use qm_dual::SmallGraph;
use qm_forest::{greatest_cost, least_costs, near, twin};
use std::alloc::Global;

/// A feasible dual, in which no number is above the greatest cost, up or down: the least costs, each raised in turn.
/// Where a vertex can be raised no more, an edge at it is tight, and may be matched at once. Linear in the graph.
pub(crate) fn first_weights(alloc: Global, g: &SmallGraph, fans: &Fans) -> Result<Vec<i64>, Memory>
    requires costs { AreCostsBelow g.now.graph (2 ^ 60) }
    requires fans { AreFans g.now.graph fans.now.first.items fans.now.next.items }
    ensures { IfOk result (λ y. (most : ℕ) → AreCostsBelow g.now.graph most → HaveRoom g.now.graph most y.items) }
{
    let most = greatest_cost(g);
    let mut y = least_costs(alloc, g, most)?;
    raise_all(&mut y, g, fans, most);
    Ok(y)
}

/// Raises the number of each vertex in turn.
fn raise_all(y: &mut [i64], g: &SmallGraph, fans: &Fans, most: u64)
    requires fans { AreFans g.now.graph fans.now.first.items fans.now.next.items }
    requires ready { MayRise g.now.graph most y.old }
    ensures { MayRise g.now.graph most y.new }
{
    for v in 0..g.n() {
        raise(y, g, fans, v, most);
    }
}

/// Raises the number of a vertex as far as the edges there allow, and at most to a bound.
fn raise(y: &mut [i64], g: &SmallGraph, fans: &Fans, v: u32, most: u64)
    requires { MayRiseAt g.now.graph fans.now most y.old v }
    ensures { MayRise g.now.graph most y.new }
{
    let room = room_at(y, g, fans, v, most);
    if y[v as usize] < room {
        y[v as usize] = room;
    }
}

/// How great the number of a vertex may be: what each edge leaves to it, and at most a bound.
fn room_at(y: &[i64], g: &SmallGraph, fans: &Fans, v: u32, most: u64) -> i64
    requires { MayRiseAt g.now.graph fans.now most y.now v }
    ensures { IsRoom g.now.graph most y.now v result }
{
    let mut room = most as i64;
    let mut entry = fans.first[v as usize];
    while entry > 0 {
        let left = left_by(y, g, entry - 1);
        room = room.min(left);
        entry = fans.next[(entry - 1) as usize];
    }
    room
}

/// What the far end of a dart leaves to the vertex where it begins.
#[tactic(auto, using(crate::proofs::Raised::cost_small))]
fn left_by(y: &[i64], g: &SmallGraph, d: u32) -> i64
    requires ready { (most : ℕ) × MayRise g.now.graph most y.now }
    requires dart { d < 2 * length g.now.graph.edges }
    ensures value { result ≡ left_to g.now.graph y.now d }
    ensures small { unsigned_abs result ≤ 2 ^ 62 }
{
    let cost = g.edge(d / 2).cost;
    let number = y[near(g, twin(d)) as usize];
    left_of(cost, number)
}

/// What a number at one end of an edge leaves to the other end.
fn left_of(cost: i64, number: i64) -> i64
    requires cost { unsigned_abs cost ≤ 2 ^ 60 }
    requires number { unsigned_abs number ≤ 2 ^ 60 }
    ensures value { result ≡ ((pos 2 *ℤ cost) -ℤ number) }
    ensures small { unsigned_abs result ≤ 2 ^ 62 }
{
    2 * cost - number
}
