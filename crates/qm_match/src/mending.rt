//! Keys that are mended where a blossom got another label.

ghost use Rattle.std.specs.Prelude.{◌≡◌, ◌≢◌, ◌<◌, ◌≤◌, ◌==◌, ℕ, length, slice_index};
ghost use Rattle.std.specs.Vec.{vec_capacity};
ghost use Rattle.def_forest.specs.Tables.{forest_of, IsValidFor};
ghost use Rattle.def_forest.specs.declared.kinds.Label.TheVariants.{Inner};
ghost use Rattle.search_laws.specs.Keys.{AreRightAt, IsMended};
ghost use Rattle.qm_match.specs.Needs.{AreVerticesIn};
ghost use Rattle.qm_match.specs.States.{IsMade, IsRefreshed, IsFreshAt, MayRefresh};

use crate::search::Search;
use def_forest::Label;
use qm_dual::SmallGraph;

impl Search {
    /// Mends the keys of all edges at a vertex. Linear in them but for a logarithm.
    fn mend_vertex(&mut self, g: &SmallGraph, v: u32)
        requires made { IsMade g.now.graph self.old }
        requires valid { IsValidFor g.now.graph self.old.forest }
        requires vertex { v < g.now.graph.n }
        ensures same { self.new ≡ record self.old { tour = self.new.tour } }
        ensures mended { IsMended g.now.graph (forest_of self.old.forest) self.old.risen self.old.tour self.new.tour }
        ensures right { AreRightAt g.now.graph (forest_of self.old.forest) self.old.risen self.new.tour
            (λ w. w == v) }
    {
        let mut entry = self.fans.first[v as usize];
        while entry > 0 {
            let d = entry - 1;
            self.mend(g, (d / 2) as usize);
            entry = self.fans.next[d as usize];
        }
    }

    /// Mends the keys of all edges at the vertices of a blossom.
    pub(crate) fn mend_blossom(&mut self, g: &SmallGraph, b: u32)
        requires { MayRefresh g.now.graph self.old b }
        ensures same { self.new ≡ record self.old { tour = self.new.tour; members = self.new.members } }
        ensures room { g.now.graph.n ≤ vec_capacity self.new.members }
        ensures mended { IsMended g.now.graph (forest_of self.old.forest) self.old.risen self.old.tour self.new.tour }
        ensures right { AreRightAt g.now.graph (forest_of self.old.forest) self.old.risen self.new.tour
            ((forest_of self.old.forest).holds b) }
    {
        self.forest.members(b, &mut self.members);
        self.mend_members(g);
    }

    /// Mends the keys of all edges at the vertices of a list.
    fn mend_members(&mut self, g: &SmallGraph)
        requires { AreVerticesIn g.now.graph self.old self.old.members.items }
        ensures same { self.new ≡ record self.old { tour = self.new.tour } }
        ensures mended { IsMended g.now.graph (forest_of self.old.forest) self.old.risen self.old.tour self.new.tour }
        ensures right { (k : ℕ) → k < length self.old.members.items
            → AreRightAt g.now.graph (forest_of self.old.forest) self.old.risen self.new.tour
            (λ w. w == slice_index self.old.members.items k) }
    {
        for k in 0..self.members.len() {
            let v = self.members[k];
            self.mend_vertex(g, v);
        }
    }

    /// Makes the key and the mark of an inner blossom right.
    fn refresh_inner(&mut self, g: &SmallGraph, b: u32)
        requires may { MayRefresh g.now.graph self.old b }
        requires inner { (forest_of self.old.forest).label b ≡ Inner }
        ensures refreshed { IsRefreshed g.now.graph self.old self.new }
        ensures here { IsFreshAt g.now.graph self.new b }
    {
        self.inner[b as usize] = true;
        if b >= g.n() {
            self.mend(g, g.edge_count() as usize + (b - g.n()) as usize);
        }
    }

    /// Makes the keys and the mark of any other blossom right.
    fn refresh_other(&mut self, g: &SmallGraph, b: u32)
        requires may { MayRefresh g.now.graph self.old b }
        requires other { (forest_of self.old.forest).label b ≢ Inner }
        ensures refreshed { IsRefreshed g.now.graph self.old self.new }
        ensures here { IsFreshAt g.now.graph self.new b }
    {
        self.inner[b as usize] = false;
        self.mend_blossom(g, b);
    }

    /// Makes the keys and the mark of an outermost blossom right.
    pub(crate) fn refresh(&mut self, g: &SmallGraph, b: u32)
        requires { MayRefresh g.now.graph self.old b }
        ensures refreshed { IsRefreshed g.now.graph self.old self.new }
        ensures here { IsFreshAt g.now.graph self.new b }
    {
        match self.forest.label(b) {
            Label::Inner => self.refresh_inner(g, b),
            _ => self.refresh_other(g, b),
        }
    }
}
