//! Whether edges are a perfect matching.

ghost use Rattle.std.specs.Prelude.{◌≡◌, ◌+◌, ◌<◌, ℕ, map, length, slice_index_or, true, false, IfOk};
ghost use Rattle.def_math.specs.Counts.{count};
ghost use Rattle.def_math.specs.Increasing.{IsIncreasing};
ghost use Rattle.def_matching.specs.Matching.{edge_at, ends_at, IsPerfect};
ghost use Rattle.def_forest.specs.Forests.{bool_number};

use crate::Memory;
use qm_dual::SmallGraph;
use std::alloc::Global;

/// Whether a list of edge numbers is a perfect matching: increasing, and each vertex at exactly one of the edges.
/// Linear.
pub fn is_perfect(alloc: Global, g: &SmallGraph, edges: &[u32]) -> Result<bool, Memory>
    ensures { IfOk result (λ yes. yes ≡ true → IsPerfect g.now.graph edges.now) }
{
    let mut seen = vec![in alloc; false; g.n() as usize]?;
    Ok(meet(g, edges, &mut seen) && are_all(&seen))
}

/// Marks the ends of edges. Whether the edges rise, and no two of them meet.
fn meet(g: &SmallGraph, edges: &[u32], seen: &mut Vec<bool>) -> bool
    requires size { length seen.old.items ≡ g.now.graph.n }
    requires none { (v : ℕ) → slice_index_or seen.old.items v false ≡ false }
    ensures increasing { result ≡ true → IsIncreasing 0 (length g.now.graph.edges) edges.now }
    ensures size { length seen.new.items ≡ g.now.graph.n }
    ensures counts { result ≡ true → (v : ℕ) → v < g.now.graph.n
        → count (ends_at v) (map (edge_at g.now.graph) edges.now)
        ≡ bool_number (slice_index_or seen.new.items v false) }
{
    let mut next = 0;
    for e in edges {
        if *e < next || *e >= g.edge_count() || !mark(g, *e, seen) {
            return false;
        }
        next = *e + 1;
    }
    true
}

/// Marks the ends of an edge. Whether neither had a mark.
fn mark(g: &SmallGraph, e: u32, seen: &mut Vec<bool>) -> bool
    requires size { length seen.old.items ≡ g.now.graph.n }
    requires edge { e < length g.now.graph.edges }
    ensures size { length seen.new.items ≡ g.now.graph.n }
    ensures counts { result ≡ true → (v : ℕ) → bool_number (slice_index_or seen.new.items v false)
        ≡ bool_number (slice_index_or seen.old.items v false) + ends_at v (edge_at g.now.graph e) }
{
    let edge = g.edge(e);
    if seen[edge.u as usize] || seen[edge.v as usize] {
        return false;
    }
    seen[edge.u as usize] = true;
    seen[edge.v as usize] = true;
    true
}

/// Whether all marks stand.
fn are_all(seen: &[bool]) -> bool
    ensures { result ≡ true → (v : ℕ) → v < length seen.now → slice_index_or seen.now v false ≡ true }
{
    seen.iter().all(|mark| *mark)
}
