//! Where the searches begin: the tables, and a matching of tight edges.

ghost use Rattle.std.specs.Prelude.{◌≡◌, ◌<◌, ◌+◌, ◌/◌, ℕ, length, slice_index, true, IfOk};
ghost use Rattle.def_forest.specs.Tables.{forest_of, IsValidFor};
ghost use Rattle.qm_match.specs.Fans.{AreFans};
ghost use Rattle.qm_match.specs.Needs.{IsIdleAt, MayMatch};
ghost use Rattle.qm_match.specs.States.{IsFreeEdge, IsIdle, IsReady};

use crate::Memory;
use crate::fans::Fans;
use crate::search::Search;
use qm_dual::SmallGraph;
use qm_forest::Forest;
use qm_tour::Tour;
use std::alloc::Global;

/// The tables of the searches in a forest of single vertices.
pub(crate) fn search_of(
    alloc: Global,
    g: &SmallGraph,
    forest: Forest,
    fans: Fans,
) -> Result<Search, Memory>
    requires fans { AreFans g.now.graph fans.first.items fans.next.items }
    requires valid { IsValidFor g.now.graph forest }
    requires size { length forest.up ≡ g.now.graph.n + g.now.graph.n / 2 }
    ensures ready { IfOk result (λ s. IsReady s) }
    ensures same { IfOk result (λ s. s.forest ≡ forest) }
{
    let n = g.n() as usize;
    Ok(Search {
        tour: Tour::new(alloc, g.edge_count() as usize + (n / 2 + 1))?,
        risen: 0,
        first: forest.greatest_weight(),
        fans,
        inner: vec![in alloc; false; n + n / 2]?,
        members: Vec::with_capacity(alloc, n)?,
        parts: Vec::with_capacity(alloc, n)?,
        forest,
    })
}

impl Search {
    /// Matches tight edges where neither end is matched: wished ones, then those of a known matching, and then others.
    pub(crate) fn match_tight(&mut self, g: &SmallGraph, wished: &[u32], known: &[u32])
        requires idle { IsIdle g.now.graph self.old }
        requires known { (k : ℕ) → k < length known.now → slice_index known.now k < length g.now.graph.edges }
        ensures idle { IsIdle g.now.graph self.new }
        ensures first { self.new.first ≡ self.old.first }
    {
        for e in wished {
            if *e < g.edge_count() {
                self.match_if_tight(g, *e);
            }
        }
        for e in known {
            self.match_if_tight(g, *e);
        }
        for e in 0..g.edge_count() {
            self.match_if_tight(g, e);
        }
    }

    /// Matches an edge that is tight and has two ends that are not matched.
    fn match_if_tight(&mut self, g: &SmallGraph, e: u32)
        requires { IsIdleAt g.now.graph self.old e }
        ensures idle { IsIdle g.now.graph self.new }
        ensures first { self.new.first ≡ self.old.first }
    {
        if self.may_match(g, e) {
            self.match_edge(g, e);
        }
    }

    /// Whether an edge is tight, and joins two outermost blossoms that are not matched.
    fn may_match(&self, g: &SmallGraph, e: u32) -> bool
        requires { IsIdleAt g.now.graph self.now e }
        ensures { result ≡ true → IsFreeEdge g.now.graph (forest_of self.now.forest) e }
    {
        let edge = g.edge(e);
        let a = self.forest.outermost(edge.u);
        let b = self.forest.outermost(edge.v);
        a != b && !self.forest.matched(a) && !self.forest.matched(b) && self.gap(g, e) == 0
    }

    /// Matches an edge by a search that ends at once.
    fn match_edge(&mut self, g: &SmallGraph, e: u32)
        requires { MayMatch g.now.graph self.old e }
        ensures idle { IsIdle g.now.graph self.new }
        ensures first { self.new.first ≡ self.old.first }
    {
        self.forest.root(g.edge(e).u);
        self.forest.augment(g, e);
    }
}
