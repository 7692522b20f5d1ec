//! First weights: numbers that are tested before they are taken, and a match that begins with them.

ghost use Rattle.std.specs.Prelude.{◌≡◌, ◌*◌, ◌<◌, ◌≤◌, ◌+ℤ◌, ◌*ℤ◌, ℕ, pos, true, length, unsigned_abs};
ghost use Rattle.std.specs.Prelude.{slice_index_or, IfOk};
ghost use Rattle.def_forest.specs.Made.{AreFirst, MAX_FIRST};
ghost use Rattle.qm_match.specs.Weights.{HasRoom};

use crate::Memory;
use def_matching::{MAX_PRODUCT, WEdge};
use qm_dual::SmallGraph;
use qm_fraction::{Fraction, least_fraction};
use std::alloc::Global;

/// First weights, and edges that are to be matched before others where they are tight.
#[derive(Debug, Drop)]
pub(crate) struct First {
    pub(crate) y: Vec<i64>,
    pub(crate) edges: Vec<u32>,
}

/// The numbers and the edges of a least fractional matching, if they may be first weights, and else those from which it
/// was found. They are these also where tight edges match all vertices already.
pub(crate) fn led(
    alloc: Global,
    g: &SmallGraph,
    known: &[u32],
    y: Vec<i64>,
) -> Result<First, Memory>
    requires first { AreFirst g.now.graph y.items }
    ensures { IfOk result (λ first. AreFirst g.now.graph first.y.items) }
{
    if let Some(Fraction { numbers, edges }) = least_fraction(alloc, g, &y, known)? {
        if are_first(g, &numbers) {
            return Ok(First { y: numbers, edges });
        }
    }
    Ok(First {
        y,
        edges: Vec::new(alloc),
    })
}

/// Whether numbers may be first weights. Linear in the graph.
fn are_first(g: &SmallGraph, numbers: &[i64]) -> bool
    requires long { length numbers.now ≡ g.now.graph.n }
    ensures { result ≡ true → AreFirst g.now.graph numbers.now }
{
    are_small(numbers, widest(g.n())) && have_room(g, numbers)
}

/// How far a first weight may be from 0.
fn widest(n: u32) -> u64
    ensures { n * result ≤ MAX_FIRST }
{
    if n == 0 {
        return 0;
    }
    (2 * MAX_PRODUCT + MAX_PRODUCT / 2) / u64::from(n)
}

/// Whether no number is above a bound, up or down.
pub(crate) fn are_small(numbers: &[i64], most: u64) -> bool
    ensures { result ≡ true → (k : ℕ) → unsigned_abs (slice_index_or numbers.now k (pos 0)) ≤ most }
{
    numbers.iter().all(|number| number.unsigned_abs() <= most)
}

/// Whether no edge has more at its ends than twice its cost.
fn have_room(g: &SmallGraph, numbers: &[i64]) -> bool
    ensures { result ≡ true → (e : ℕ) → e < length g.now.graph.edges → HasRoom g.now.graph numbers.now e }
{
    for e in 0..g.edge_count() {
        if !has_room(g, numbers, e) {
            return false;
        }
    }
    true
}

/// Whether an edge has no more at its ends than twice its cost.
fn has_room(g: &SmallGraph, numbers: &[i64], e: u32) -> bool
    requires { e < length g.now.graph.edges }
    ensures { result ≡ true → HasRoom g.now.graph numbers.now e }
{
    let WEdge { u, v, cost } = g.edge(e);
    sum_of(number_at(numbers, u), number_at(numbers, v)) <= twice(cost)
}

/// The number of a vertex, or 0 past the end.
fn number_at(numbers: &[i64], v: u32) -> i64
    ensures { result ≡ slice_index_or numbers.now v (pos 0) }
{
    match numbers.get(v as usize) {
        Some(number) => *number,
        None => 0,
    }
}

/// Two numbers together.
fn sum_of(a: i64, b: i64) -> i128
    ensures { result ≡ (a +ℤ b) }
{
    i128::from(a) + i128::from(b)
}

/// Twice a cost.
fn twice(cost: i64) -> i128
    ensures { result ≡ (pos 2 *ℤ cost) }
{
    2 * i128::from(cost)
}
