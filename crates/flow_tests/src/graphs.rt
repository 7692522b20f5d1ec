//! What tests of graphs share.

ghost use Rattle.std.specs.Prelude.{◌≡◌, ◌==◌, ◌&&◌, nat_lt, not, unsigned_abs};
ghost use Rattle.std.specs.List.{list_all};

use def_matching::{WEdge, WGraph};
use std::alloc::{AllocError, Global};

/// Whether the ends of each edge are two vertices, and its cost is small.
pub(crate) fn are_edges(n: u32, edges: &[WEdge]) -> bool
    ensures { result ≡ list_all (λ e. (nat_lt e.u n && (nat_lt e.v n && not (e.u == e.v)))
        && nat_lt (unsigned_abs e.cost) 10000) edges.now }
{
    edges.iter().all(|edge| {
        (edge.u < n && (edge.v < n && !(edge.u == edge.v))) && edge.cost.unsigned_abs() < 10_000
    })
}

/// Two triangles with a dear edge between them.
pub(crate) fn triangles(alloc: Global) -> Result<WGraph, AllocError> {
    let mut edges = Vec::new(alloc);
    for (u, v, cost) in [
        (0, 1, 0),
        (1, 2, 0),
        (2, 0, 0),
        (3, 4, 0),
        (4, 5, 0),
        (5, 3, 0),
        (0, 3, 10),
    ] {
        edges.push(WEdge { u, v, cost })?;
    }
    Ok(WGraph { n: 6, edges })
}
