//! Feasible numbers near wished ones.

ghost use Rattle.std.specs.Prelude.{◌≡◌, ◌+◌, ◌*◌, ◌<◌, ◌≤◌, ◌^◌, ◌+ℤ◌};
ghost use Rattle.std.specs.Prelude.{◌-ℤ◌, ◌*ℤ◌, ◌≤ℤ◌, ℕ, pos, length, slice_index_or};
ghost use Rattle.std.specs.Prelude.{unsigned_abs, if◌then◌else◌, IfOk};
ghost use Rattle.def_matching.specs.Matching.{edge_at};
ghost use Rattle.qm_initial.specs.Lowered.{with_room, with_room_on, AreWithin, AreWished};

use def_matching::WEdge;
use qm_dual::SmallGraph;
use std::alloc::{AllocError, Global};

/// Memory was refused.
pub type Memory = AllocError;

/// The numbers that are wished are at most this in absolute value.
pub const MAX_WISH: u64 = 2_147_483_648;

/// A number for each vertex, at most the wished one, so that no edge has numbers at its ends whose sum is above twice
/// its cost. A vertex is lowered by no more than its edges to lesser vertices ask for. One pass over the edges.
///
/// Any wish will do; one near a least dual leaves a matching little to do.
pub fn initial_dual(alloc: Global, g: &SmallGraph, wish: &[i64]) -> Result<Vec<i64>, Memory>
    requires cheap { (e : ℕ) → e < length g.now.graph.edges → unsigned_abs (edge_at g.now.graph e).cost ≤ 2 ^ 57 }
    requires long { length wish.now ≡ g.now.graph.n }
    requires wish { (v : ℕ) → unsigned_abs (slice_index_or wish.now v (pos 0)) ≤ MAX_WISH }
    ensures long { IfOk result (λ y. length y.items ≡ g.now.graph.n) }
    ensures feasible { IfOk result (λ y. (e : ℕ) → e < length g.now.graph.edges
        → (slice_index_or y.items (edge_at g.now.graph e).u (pos 0)
        +ℤ slice_index_or y.items (edge_at g.now.graph e).v (pos 0))
        ≤ℤ (pos 2 *ℤ (edge_at g.now.graph e).cost)) }
    ensures wished { IfOk result (λ y. (v : ℕ)
        → slice_index_or y.items v (pos 0) ≤ℤ slice_index_or wish.now v (pos 0)) }
    ensures small { IfOk result (λ y. (most : ℕ)
        → ((e : ℕ) → e < length g.now.graph.edges → unsigned_abs (edge_at g.now.graph e).cost ≤ most)
        → (v : ℕ) → unsigned_abs (slice_index_or y.items v (pos 0)) ≤ 2 * most + MAX_WISH) }
{
    let mut y = Vec::from_slice(alloc, wish)?;
    lower_all(&mut y, g);
    Ok(y)
}

/// Lowers numbers until each edge has room, edge by edge.
fn lower_all(y: &mut [i64], g: &SmallGraph)
    requires cheap { (e : ℕ) → e < length g.now.graph.edges → unsigned_abs (edge_at g.now.graph e).cost ≤ 2 ^ 57 }
    requires long { length y.old ≡ g.now.graph.n }
    requires wish { (v : ℕ) → unsigned_abs (slice_index_or y.old v (pos 0)) ≤ MAX_WISH }
    ensures { AreWished g.now.graph y.old y.new (length g.now.graph.edges) }
{
    for e in 0..g.edge_count() {
        let edge = g.edge(e);
        make_room(y, &edge);
    }
}

/// Lowers the number of the greater end of an edge, where the sum at its ends is above twice its cost.
fn make_room(y: &mut [i64], edge: &WEdge)
    requires ends { (edge.now.u < length y.old) × (edge.now.v < length y.old) }
    requires range { AreWithin y.old }
    requires cost { unsigned_abs edge.now.cost ≤ 2 ^ 57 }
    ensures { y.new ≡ with_room_on edge.now y.old }
{
    if edge.u < edge.v {
        lower(y, edge.u, edge.v, edge.cost);
    } else {
        lower(y, edge.v, edge.u, edge.cost);
    }
}

/// Lowers one number, where its sum with another is above twice a cost.
fn lower(y: &mut [i64], kept: u32, lowered: u32, cost: i64)
    requires ends { (kept < length y.old) × (lowered < length y.old) }
    requires range { AreWithin y.old }
    requires cost { unsigned_abs cost ≤ 2 ^ 57 }
    ensures { y.new ≡ with_room (pos 2 *ℤ cost) y.old kept lowered }
{
    let room = room_beside(y[kept as usize], cost);
    if y[lowered as usize] > room {
        y[lowered as usize] = room;
    }
}

/// What a number at one end of an edge leaves to the other.
fn room_beside(number: i64, cost: i64) -> i64
    requires number { unsigned_abs number ≤ 2 ^ 59 }
    requires cost { unsigned_abs cost ≤ 2 ^ 57 }
    ensures { result ≡ ((pos 2 *ℤ cost) -ℤ number) }
{
    2 * cost - number
}
