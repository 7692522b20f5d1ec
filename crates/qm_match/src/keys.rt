//! The keys that the leaves ought to have.

ghost use Rattle.std.specs.Prelude.{◌≡◌, ◌+◌, ◌^◌, ◌<◌, ◌≤◌, length, slice_set, unsigned_abs};
ghost use Rattle.def_forest.specs.Tables.{forest_of, slack_of};
ghost use Rattle.search_laws.specs.Keys.{key_after, edge_key, set_key, true_key};
ghost use Rattle.def_forest.specs.Needs.{IsEdgeOf};
ghost use Rattle.qm_match.specs.Needs.{IsLeafIn};

use crate::search::Search;
use def_forest::Label;
use qm_dual::SmallGraph;

/// The key of what happens when the sum has risen by so much more. What does not fit never happens.
fn key_after(gap: u128, risen: u64) -> u64
    requires { gap ≤ 2 ^ 127 }
    ensures { result ≡ key_after gap risen }
{
    (gap + u128::from(risen)).min(u128::from(u64::MAX)) as u64
}

impl Search {
    /// The slack of an edge.
    pub(crate) fn gap(&self, g: &SmallGraph, e: u32) -> u128
        requires { IsEdgeOf g.now.graph self.now.forest e }
        ensures value { result ≡ unsigned_abs (slack_of g.now.graph (forest_of self.now.forest) e) }
        ensures small { result ≤ 2 ^ 127 }
    {
        self.forest.slack(g, e).unsigned_abs()
    }

    /// The key of an edge.
    fn edge_key(&self, g: &SmallGraph, e: u32) -> u64
        requires { IsEdgeOf g.now.graph self.now.forest e }
        ensures { result ≡ edge_key g.now.graph (forest_of self.now.forest) self.now.risen e }
    {
        let edge = g.edge(e);
        let a = self.forest.outermost(edge.u);
        let b = self.forest.outermost(edge.v);
        match (self.forest.label(a), self.forest.label(b)) {
            (Label::Outer, Label::Outer) => if a == b {
                u64::MAX
            } else {
                key_after(self.gap(g, e) / 2, self.risen)
            },
            (Label::Outer, Label::Outside) => key_after(self.gap(g, e), self.risen),
            (Label::Outside, Label::Outer) => key_after(self.gap(g, e), self.risen),
            _ => u64::MAX,
        }
    }

    /// The key of a set.
    fn set_key(&self, b: u32) -> u64
        ensures { result ≡ set_key (forest_of self.now.forest) self.now.risen b }
    {
        match self.forest.label(b) {
            Label::Inner => key_after(u128::from(self.forest.weight(b).unsigned_abs()), self.risen),
            _ => u64::MAX,
        }
    }

    /// The key that a leaf ought to have.
    pub(crate) fn true_key(&self, g: &SmallGraph, leaf: usize) -> u64
        requires { IsLeafIn g.now.graph self.now leaf }
        ensures { result ≡ true_key g.now.graph (forest_of self.now.forest) self.now.risen leaf }
    {
        let edges = g.edge_count() as usize;
        if leaf < edges {
            self.edge_key(g, leaf as u32)
        } else {
            self.set_key(g.n() + (leaf - edges) as u32)
        }
    }

    /// Gives a leaf the key that it ought to have.
    pub(crate) fn mend(&mut self, g: &SmallGraph, leaf: usize)
        requires { IsLeafIn g.now.graph self.old leaf }
        ensures { self.new ≡ record self.old {
          tour = slice_set self.old.tour leaf
              (true_key g.now.graph (forest_of self.old.forest) self.old.risen leaf);
        } }
    {
        let key = self.true_key(g, leaf);
        self.set_leaf(leaf, key);
    }

    /// Gives a leaf a key.
    pub(crate) fn set_leaf(&mut self, leaf: usize, key: u64)
        requires { leaf < length self.old.tour }
        ensures { self.new ≡ record self.old { tour = slice_set self.old.tour leaf key } }
    {
        self.tour.set(leaf, key);
    }
}
