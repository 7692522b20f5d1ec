//! Graphs that are as small as the calls over them take them.

ghost use Rattle.std.specs.Prelude.{◌≡◌, ◌<◌, ◌≤◌, length};
ghost use Rattle.def_matching.specs.Matching.{graph, edge_at, IsSmallGraph};

use def_matching::{MAX_EDGES, MAX_VERTICES, WEdge, WGraph};
use std::marker::Model;

/// A graph whose edges lead between its vertices, and that has few of both. Contracts see the graph, and that it is so.
#[derive(Debug, Drop)]
pub struct SmallGraph<'a> {
    pub whole: &'a WGraph,
    pub ghost small: { IsSmallGraph (graph whole.now) },
}

impl<'a> Model for SmallGraph<'a> {
    ghost use Rattle.def_small.specs.Graphs.{Small};
    ghost use Rattle.def_matching.specs.Matching.{graph};

    ghost Value = { Small };

    ghost view = { λ g. record { graph = graph g.whole.now; small = g.small } };
}

impl SmallGraph<'_> {
    /// How many vertices it has.
    pub fn n(&self) -> u32
        ensures value { result ≡ self.now.graph.n }
        ensures few { result ≤ MAX_VERTICES }
    {
        self.whole.n
    }

    /// How many edges it has.
    pub fn edge_count(&self) -> u32
        ensures value { result ≡ length self.now.graph.edges }
        ensures few { result ≤ MAX_EDGES }
    {
        self.whole.edges.len() as u32
    }

    /// An edge by its number.
    pub fn edge(&self, e: u32) -> WEdge
        requires { e < length self.now.graph.edges }
        ensures value { result ≡ edge_at self.now.graph e }
        ensures ends { (result.u < self.now.graph.n) × (result.v < self.now.graph.n) }
    {
        self.whole.edges[e as usize]
    }
}
