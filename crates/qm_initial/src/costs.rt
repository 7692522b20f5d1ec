//! A wish that serves where nothing is known: the least cost at each vertex.

ghost use Rattle.std.specs.Prelude.{◌≡◌, ◌<◌, ◌≤◌, ℕ, pos, length, slice_index_or, unsigned_abs, IfOk};
ghost use Rattle.qm_initial.specs.Lowered.{AreNear};

use crate::initial::{MAX_WISH, Memory};
use def_matching::WEdge;
use qm_dual::SmallGraph;
use std::alloc::Global;

/// For each vertex the least cost of its edges, as far as a wish goes. No two of these have a sum above twice the cost
/// of an edge between them. Linear in the graph.
pub fn least_costs(alloc: Global, g: &SmallGraph) -> Result<Vec<i64>, Memory>
    ensures long { IfOk result (λ costs. length costs.items ≡ g.now.graph.n) }
    ensures near { IfOk result (λ costs. (v : ℕ) → unsigned_abs (slice_index_or costs.items v (pos 0)) ≤ MAX_WISH) }
{
    let mut costs = Costs {
        at: vec![in alloc; MAX_WISH as i64; g.n() as usize]?,
    };
    for e in 0..g.edge_count() {
        let edge = g.edge(e);
        costs.take(&edge);
    }
    Ok(costs.at)
}

/// A number for each vertex, none farther from 0 than a wish.
#[derive(Drop)]
struct Costs {
    at: Vec<i64>,
    ghost near: { AreNear at.items },
}

impl Costs {
    /// Takes the cost of an edge at both ends.
    fn take(&mut self, edge: &WEdge)
        requires { (edge.now.u < length self.old.at.items) × (edge.now.v < length self.old.at.items) }
        ensures { length self.new.at.items ≡ length self.old.at.items }
    {
        let most = MAX_WISH as i64;
        let cost = edge.cost.max(-most).min(most);
        self.lower(edge.u, cost);
        self.lower(edge.v, cost);
    }

    /// Lowers the number of a vertex to this one, where it is greater.
    fn lower(&mut self, v: u32, cost: i64)
        requires vertex { v < length self.old.at.items }
        requires near { unsigned_abs cost ≤ MAX_WISH }
        ensures { length self.new.at.items ≡ length self.old.at.items }
    {
        if cost < self.at[v as usize] {
            self.at[v as usize] = cost;
        }
    }
}
