//! Slacks and kinds of edges: by potentials across blossoms, by climbing within one.

ghost use Rattle.std.specs.Prelude.{◌≡◌, ◌≢◌, ◌^◌, ◌<◌, ◌≤◌, ◌⊎◌, ◌==◌, pos, length, slice_index};
ghost use Rattle.std.specs.Prelude.{slice_index_or, unsigned_abs};
ghost use Rattle.def_forest.specs.Forests.{Blossom, weight_between};
ghost use Rattle.def_forest.specs.Needs.{IsEdgeOf};
ghost use Rattle.qm_forest.specs.Needs.{AreVertices};
ghost use Rattle.qm_forest.specs.Ties.{IsClimb};
ghost use Rattle.def_forest.specs.Tables.{up_at, forest_of, slack_of, edge_kind, kind_by};

use crate::forest::Forest;
use crate::numbers::read;
use def_forest::{EdgeKind, Label};
use qm_dual::SmallGraph;

impl Forest {
    /// Twice the cost of an edge less its load. Constant between two outermost blossoms; within one it climbs.
    pub fn slack(&self, g: &SmallGraph, e: u32) -> i128
        requires { IsEdgeOf g.now.graph self.now e }
        ensures { result ≡ slack_of g.now.graph (forest_of self.now) e }
    {
        let edge = g.edge(e);
        2 * i128::from(edge.cost) - self.load_between(g, edge.u, edge.v)
    }

    /// The load between two vertices.
    fn load_between(&self, g: &SmallGraph, u: u32, v: u32) -> i128
        requires { AreVertices g.now.graph self.now u v }
        ensures value { result ≡ weight_between (forest_of self.now) u v }
        ensures small { unsigned_abs result ≤ 2 ^ 92 }
    {
        if self.outermost(u) == self.outermost(v) {
            self.load_within(g, u, v)
        } else {
            self.load_across(g, u, v)
        }
    }

    /// The load between two vertices of different outermost blossoms.
    fn load_across(&self, g: &SmallGraph, u: u32, v: u32) -> i128
        requires ends { AreVertices g.now.graph self.now u v }
        requires apart { (forest_of self.now).out u ≢ (forest_of self.now).out v }
        ensures value { result ≡ weight_between (forest_of self.now) u v }
        ensures small { unsigned_abs result ≤ 2 ^ 92 }
    {
        let _ = g;
        self.potential(u) + self.potential(v)
    }

    /// The load between two vertices of one outermost blossom.
    #[tactic(auto, using(crate::proofs::Meeting::met_load))]
    fn load_within(&self, g: &SmallGraph, u: u32, v: u32) -> i128
        requires ends { AreVertices g.now.graph self.now u v }
        requires same { (forest_of self.now).out u ≡ (forest_of self.now).out v }
        ensures value { result ≡ weight_between (forest_of self.now) u v }
        ensures small { unsigned_abs result ≤ 2 ^ 92 }
    {
        let _ = g;
        let mut x = u;
        let mut y = v;
        let mut load = 0i128;
        while x != y {
            let (low, high) = self.by_rank(x, y);
            load += self.base_at(low);
            x = self.up_at(low);
            y = high;
        }
        load
    }

    /// The set around a blossom.
    pub(crate) fn up_at(&self, b: u32) -> u32
        ensures value { result ≡ up_at self.now.up b }
        ensures low { b < length self.now.up → result < length self.now.up }
    {
        read(&self.rings.up, b, b)
    }

    /// The weight that is kept of a blossom. All weights are small.
    fn base_at(&self, b: u32) -> i128
        ensures value { result ≡ slice_index_or self.now.base b (pos 0) }
        ensures bound { unsigned_abs result ≤ 2 ^ 93 }
        ensures few { length self.now.up ≤ 2 ^ 26 }
        ensures climb { IsClimb (length self.now.hand) (up_at self.now.up) (forest_of self.now).out }
        ensures small { (k : Blossom) → unsigned_abs ((forest_of self.now).weight k) ≤ 2 ^ 62 }
    {
        read(&self.weights.base, b, 0)
    }

    /// Two blossoms, that of lower rank first.
    fn by_rank(&self, x: u32, y: u32) -> (u32, u32)
        ensures either { ((result.0 ≡ x) × (result.1 ≡ y)) ⊎ ((result.0 ≡ y) × (result.1 ≡ x)) }
        ensures order { slice_index self.now.rank result.0 ≤ slice_index self.now.rank result.1 }
    {
        if self.size(x) <= self.size(y) {
            (x, y)
        } else {
            (y, x)
        }
    }

    /// The step that an edge allows.
    pub fn kind(&self, g: &SmallGraph, e: u32) -> EdgeKind
        requires { IsEdgeOf g.now.graph self.now e }
        ensures { result ≡ edge_kind g.now.graph (forest_of self.now) e }
    {
        if self.slack(g, e) > 0 {
            return EdgeKind::Loose;
        }
        let edge = g.edge(e);
        self.kind_between(self.outermost(edge.u), self.outermost(edge.v))
    }

    /// What a tight edge between two outermost blossoms allows.
    fn kind_between(&self, a: u32, b: u32) -> EdgeKind
        ensures { let f = forest_of self.now in
            result ≡ kind_by (f.label a) (f.label b) (f.mate a) (f.mate b) (a == b) }
    {
        match (self.label(a), self.label(b)) {
            (Label::Outer, Label::Outer) => if a == b {
                EdgeKind::Idle
            } else {
                EdgeKind::Shrink
            },
            (Label::Outer, Label::Outside) => if self.matched(b) {
                EdgeKind::Grow
            } else {
                EdgeKind::Augment
            },
            (Label::Outside, Label::Outer) => if self.matched(a) {
                EdgeKind::Grow
            } else {
                EdgeKind::Augment
            },
            _ => EdgeKind::Idle,
        }
    }
}
