//! Searches: the step with the least key is taken, again and again, until the matching grows.

ghost use Rattle.std.specs.Prelude.{◌≡◌, ◌+◌, ◌*◌, ◌*ℤ◌, ◌<◌, ℕ, pos, length, true, false};
ghost use Rattle.def_matching.specs.Matching.{matching_cost, IsPerfect};
ghost use Rattle.def_matching.specs.Dual.{dual, verdict, IsSmallDual};
ghost use Rattle.def_forest.specs.Tables.{forest_of};
ghost use Rattle.search_laws.specs.Keys.{Leaf, true_key};
ghost use Rattle.search_laws.specs.Searches.{AreMatchedBefore, steps_left, turns_left};
ghost use Rattle.def_forest.specs.Made.{AreAtMost, AreCostsBelow};
ghost use Rattle.qm_match.specs.Needs.{HasCome, IsDone, IsNext, IsReached, MayStepAlong};
ghost use Rattle.qm_match.specs.States.{GoesOn, HasEnded, IsIdle, IsUnderWay};

use crate::search::Search;
use def_forest::EdgeKind;
use def_matching::{Dual, Verdict};
use qm_dual::SmallGraph;

impl Search {
    /// Shifts the dual until the sum of the weights has risen to a key that is the least.
    fn rise_to(&mut self, g: &SmallGraph, key: u64)
        requires { IsNext g.now.graph self.old key }
        ensures way { IsUnderWay g.now.graph self.new }
        ensures goes_on { GoesOn g.now.graph.n self.old.forest self.new.forest }
        ensures steps { steps_left g.now.graph.n (forest_of self.new.forest)
            ≡ steps_left g.now.graph.n (forest_of self.old.forest) }
        ensures keys { (k : Leaf) → k < length self.old.tour
            → true_key g.now.graph (forest_of self.new.forest) self.new.risen k
            ≡ true_key g.now.graph (forest_of self.old.forest) self.old.risen k }
        ensures tour { self.new.tour ≡ self.old.tour }
        ensures risen { self.new.risen ≡ key }
        ensures first { self.new.first ≡ self.old.first }
    {
        let t = key - self.risen;
        self.forest.shift(g, t as i64);
        self.risen = key;
    }

    /// Takes the step that an edge allows whose key has come. Whether it ended the search.
    fn step_along(&mut self, g: &SmallGraph, e: u32) -> bool
        requires { MayStepAlong g.now.graph self.old e }
        ensures way { result ≡ false → IsUnderWay g.now.graph self.new }
        ensures goes_on { result ≡ false → GoesOn g.now.graph.n self.old.forest self.new.forest }
        ensures fewer { result ≡ false → steps_left g.now.graph.n (forest_of self.new.forest)
            < steps_left g.now.graph.n (forest_of self.old.forest) }
        ensures idle { result ≡ true → IsIdle g.now.graph self.new }
        ensures ended { result ≡ true → HasEnded g.now.graph.n self.old.forest self.new.forest }
        ensures first { self.new.first ≡ self.old.first }
    {
        match self.forest.kind(g, e) {
            EdgeKind::Grow => self.grow(g, e),
            EdgeKind::Shrink => self.shrink(g, e),
            EdgeKind::Augment => {
                self.augment(g, e);
                return true;
            }
            _ => unreachable!(),
        }
        false
    }

    /// Takes the step of a leaf whose key has come. Whether it ended the search.
    fn step(&mut self, g: &SmallGraph, leaf: usize) -> bool
        requires { HasCome g.now.graph self.old leaf }
        ensures way { result ≡ false → IsUnderWay g.now.graph self.new }
        ensures goes_on { result ≡ false → GoesOn g.now.graph.n self.old.forest self.new.forest }
        ensures fewer { result ≡ false → steps_left g.now.graph.n (forest_of self.new.forest)
            < steps_left g.now.graph.n (forest_of self.old.forest) }
        ensures idle { result ≡ true → IsIdle g.now.graph self.new }
        ensures ended { result ≡ true → HasEnded g.now.graph.n self.old.forest self.new.forest }
        ensures first { self.new.first ≡ self.old.first }
    {
        let edges = g.edge_count() as usize;
        if leaf < edges {
            return self.step_along(g, leaf as u32);
        }
        self.expand(g, g.n() + (leaf - edges) as u32);
        false
    }

    /// Mends the least key, or takes its step where it is right. Whether that ended the search.
    fn turn(&mut self, g: &SmallGraph) -> bool
        requires way { IsUnderWay g.now.graph self.old }
        ensures way { result ≡ false → IsUnderWay g.now.graph self.new }
        ensures goes_on { result ≡ false → GoesOn g.now.graph.n self.old.forest self.new.forest }
        ensures fewer { result ≡ false
            → turns_left g.now.graph (forest_of self.new.forest) self.new.risen self.new.tour
            < turns_left g.now.graph (forest_of self.old.forest) self.old.risen self.old.tour }
        ensures idle { result ≡ true → IsIdle g.now.graph self.new }
        ensures ended { result ≡ true → HasEnded g.now.graph.n self.old.forest self.new.forest }
        ensures first { self.new.first ≡ self.old.first }
    {
        let leaf = self.tour.least_leaf();
        let key = self.true_key(g, leaf);
        if self.tour.key(leaf) != key {
            self.set_leaf(leaf, key);
            return false;
        }
        self.rise_to(g, key);
        self.step(g, leaf)
    }

    /// Searches until the matching grows.
    fn search(&mut self, g: &SmallGraph)
        requires way { IsUnderWay g.now.graph self.old }
        ensures idle { IsIdle g.now.graph self.new }
        ensures ended { HasEnded g.now.graph.n self.old.forest self.new.forest }
        ensures first { self.new.first ≡ self.old.first }
    {
        let mut ended = false;
        while !ended {
            ended = self.turn(g);
        }
    }

    /// Searches from a vertex, if it is not matched.
    fn match_vertex(&mut self, g: &SmallGraph, v: u32)
        requires { IsReached g.now.graph self.old v }
        ensures idle { IsIdle g.now.graph self.new }
        ensures after { AreMatchedBefore (forest_of self.new.forest) (v + 1) }
        ensures first { self.new.first ≡ self.old.first }
    {
        if !self.forest.matched(self.forest.outermost(v)) {
            self.begin(g, v);
            self.search(g);
        }
    }

    /// Searches from each vertex in turn, so that all are matched.
    pub(crate) fn match_all(&mut self, g: &SmallGraph)
        requires idle { IsIdle g.now.graph self.old }
        ensures idle { IsIdle g.now.graph self.new }
        ensures all { AreMatchedBefore (forest_of self.new.forest) g.now.graph.n }
        ensures first { self.new.first ≡ self.old.first }
    {
        for v in 0..g.n() {
            self.match_vertex(g, v);
        }
    }
    /// The matching and the dual, where all searches are done.
    #[tactic(auto, using(crate::proofs::Outcomes::bounded_dual))]
    pub(crate) fn into_parts(self, g: &SmallGraph) -> (Vec<u32>, Dual)
        requires { IsDone g.now.graph self }
        ensures perfect { IsPerfect g.now.graph result.0.items }
        ensures dual { IsSmallDual (dual result.1) }
        ensures bounded { (most : ℕ) → AreCostsBelow g.now.graph most
            → AreAtMost (2 * (g.now.graph.n * self.first) + g.now.graph.n * most) (dual result.1) }
        ensures least { verdict g.now.graph (dual result.1)
            ≡ Verdict.Yes (pos 2 *ℤ matching_cost g.now.graph result.0.items) }
    {
        let Search {
            forest,
            tour: _,
            risen: _,
            first: _,
            fans: _,
            inner: _,
            members: _,
            parts: _,
        } = self;
        let _ = g;
        forest.into_parts()
    }
}
