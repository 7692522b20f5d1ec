//! The steps of a search, with the keys that they change.

ghost use Rattle.std.specs.Prelude.{◌≡◌, ◌<◌, ◌≤◌, ℕ, length, slice_index};
ghost use Rattle.std.specs.Prelude.{slice_index_or, true, false, Some, None};
ghost use Rattle.std.specs.Vec.{vec_capacity};
ghost use Rattle.def_forest.specs.Darts.{Dart, darts_of, far};
ghost use Rattle.def_forest.specs.Forests.{walk};
ghost use Rattle.def_forest.specs.Tables.{forest_of, IsValidFor};
ghost use Rattle.def_forest.specs.declared.kinds.EdgeKind.TheVariants.{Augment, Grow, Shrink};
ghost use Rattle.search_laws.specs.Keys.{AreRightAt, IsMended};
ghost use Rattle.search_laws.specs.Searches.{steps_left, IsSeeking};
ghost use Rattle.qm_match.specs.Needs.{IsSetIn, MayOpen, MayRefreshAll, MaySearch, MayStep};
ghost use Rattle.qm_match.specs.States.{GoesOn, HasEnded, IsFreshAt, IsIdle, IsRefreshed, IsUnderWay};
ghost use Rattle.qm_match.specs.States.{MayRefresh};

use crate::search::Search;
use qm_dual::SmallGraph;

impl Search {
    /// The tree grows along an edge.
    pub(crate) fn grow(&mut self, g: &SmallGraph, e: u32)
        requires { MayStep g.now.graph self.old e Grow }
        ensures way { IsUnderWay g.now.graph self.new }
        ensures goes_on { GoesOn g.now.graph.n self.old.forest self.new.forest }
        ensures fewer { steps_left g.now.graph.n (forest_of self.new.forest)
            < steps_left g.now.graph.n (forest_of self.old.forest) }
        ensures first { self.new.first ≡ self.old.first }
    {
        let d = self.forest.outer_dart(g, e);
        let inner = self.forest.far_blossom(g, d);
        let outer = self.partner(g, inner);
        self.forest.grow(g, e);
        self.refresh(g, inner);
        self.refresh(g, outer);
    }

    /// The blossom to which an outermost one is matched; itself where it has no mate.
    fn partner(&self, g: &SmallGraph, b: u32) -> u32
        requires valid { IsValidFor g.now.graph self.now.forest }
        requires low { b < length self.now.forest.up }
        ensures value { (m : Dart) → (forest_of self.now.forest).mate b ≡ Some m
            → result ≡ (forest_of self.now.forest).out (far (darts_of g.now.graph) m) }
        ensures low { result < length self.now.forest.up }
    {
        match self.forest.mate(b) {
            Some(m) => self.forest.far_blossom(g, m),
            None => b,
        }
    }

    /// The cycle that an edge closes in the tree becomes one blossom.
    pub(crate) fn shrink(&mut self, g: &SmallGraph, e: u32)
        requires { MayStep g.now.graph self.old e Shrink }
        ensures way { IsUnderWay g.now.graph self.new }
        ensures goes_on { GoesOn g.now.graph.n self.old.forest self.new.forest }
        ensures fewer { steps_left g.now.graph.n (forest_of self.new.forest)
            < steps_left g.now.graph.n (forest_of self.old.forest) }
        ensures first { self.new.first ≡ self.old.first }
    {
        self.forest.shrink(g, e);
        let set = self.forest.outermost(g.edge(e).u);
        self.mend_parts(g, set);
        self.inner[set as usize] = false;
    }

    /// Mends the keys at the parts of a set that have marks: they were inner.
    fn mend_parts(&mut self, g: &SmallGraph, set: u32)
        requires { IsSetIn g.now.graph self.old set }
        ensures same { self.new ≡ record self.old { tour = self.new.tour; members = self.new.members } }
        ensures room { g.now.graph.n ≤ vec_capacity self.new.members }
        ensures mended { IsMended g.now.graph (forest_of self.old.forest) self.old.risen self.old.tour self.new.tour }
        ensures right { let part = walk (slice_index self.old.forest.after) (slice_index self.old.forest.head set) in
            (k : ℕ) → k < slice_index self.old.forest.parts set
            → slice_index_or self.old.inner.items (part k) false ≡ true
            → AreRightAt g.now.graph (forest_of self.old.forest) self.old.risen self.new.tour
            ((forest_of self.old.forest).holds (part k)) }
    {
        let mut part = self.forest.head(set);
        for _ in 0..self.forest.parts(set) {
            self.mend_marked(g, part);
            part = self.forest.next(part);
        }
    }

    /// Mends the keys at a blossom that has a mark.
    fn mend_marked(&mut self, g: &SmallGraph, b: u32)
        requires { MayRefresh g.now.graph self.old b }
        ensures same { self.new ≡ record self.old { tour = self.new.tour; members = self.new.members } }
        ensures room { g.now.graph.n ≤ vec_capacity self.new.members }
        ensures mended { IsMended g.now.graph (forest_of self.old.forest) self.old.risen self.old.tour self.new.tour }
        ensures right { slice_index_or self.old.inner.items b false ≡ true
            → AreRightAt g.now.graph (forest_of self.old.forest) self.old.risen self.new.tour
            ((forest_of self.old.forest).holds b) }
    {
        if self.inner[b as usize] {
            self.mend_blossom(g, b);
        }
    }

    /// An inner set of weight 0 is opened.
    pub(crate) fn expand(&mut self, g: &SmallGraph, b: u32)
        requires { MayOpen g.now.graph self.old b }
        ensures way { IsUnderWay g.now.graph self.new }
        ensures goes_on { GoesOn g.now.graph.n self.old.forest self.new.forest }
        ensures fewer { steps_left g.now.graph.n (forest_of self.new.forest)
            < steps_left g.now.graph.n (forest_of self.old.forest) }
        ensures first { self.new.first ≡ self.old.first }
    {
        self.list_parts(g, b);
        self.forest.expand(g, b);
        self.refresh_parts(g);
    }

    /// Lists the parts of a set.
    fn list_parts(&mut self, g: &SmallGraph, b: u32)
        requires { IsSetIn g.now.graph self.old b }
        ensures same { self.new ≡ record self.old { parts = self.new.parts } }
        ensures room { g.now.graph.n ≤ vec_capacity self.new.parts }
        ensures count { length self.new.parts.items ≡ slice_index self.old.forest.parts b }
        ensures each { (k : ℕ) → k < slice_index self.old.forest.parts b → slice_index self.new.parts.items k
            ≡ walk (slice_index self.old.forest.after) (slice_index self.old.forest.head b) k }
    {
        let _ = g;
        self.parts.clear();
        let mut part = self.forest.head(b);
        for _ in 0..self.forest.parts(b) {
            self.parts.push(part).unwrap();
            part = self.forest.next(part);
        }
    }

    /// Makes the keys and marks of the listed blossoms right.
    fn refresh_parts(&mut self, g: &SmallGraph)
        requires { MayRefreshAll g.now.graph self.old self.old.parts.items }
        ensures refreshed { IsRefreshed g.now.graph self.old self.new }
        ensures here { (k : ℕ) → k < length self.old.parts.items
            → IsFreshAt g.now.graph self.new (slice_index self.old.parts.items k) }
    {
        for k in 0..self.parts.len() {
            let p = self.parts[k];
            self.refresh(g, p);
        }
    }

    /// The matching grows along an edge, and the search ends.
    pub(crate) fn augment(&mut self, g: &SmallGraph, e: u32)
        requires { MayStep g.now.graph self.old e Augment }
        ensures idle { IsIdle g.now.graph self.new }
        ensures ended { HasEnded g.now.graph.n self.old.forest self.new.forest }
        ensures first { self.new.first ≡ self.old.first }
    {
        self.forest.augment(g, e);
    }

    /// A search begins at a vertex that is not matched.
    pub(crate) fn begin(&mut self, g: &SmallGraph, v: u32)
        requires { MaySearch g.now.graph self.old v }
        ensures way { IsUnderWay g.now.graph self.new }
        ensures seeking { IsSeeking g.now.graph.n (forest_of self.new.forest) self.new.forest.root v }
        ensures first { self.new.first ≡ self.old.first }
    {
        let b = self.forest.outermost(v);
        self.forest.root(v);
        self.refresh(g, b);
    }
}
