//! Growing: a matched blossom outside and its mate join the tree.

ghost use Rattle.std.specs.Prelude.{◌≡◌, ◌*◌, ◌<◌, length};
ghost use Rattle.def_forest.specs.Darts.{darts_of};
ghost use Rattle.def_forest.specs.Steps.{IsGrown};
ghost use Rattle.def_forest.specs.Tables.{forest_of, outer_dart, IsValidFor};
ghost use Rattle.def_forest.specs.declared.kinds.EdgeKind.TheVariants.{Grow};
ghost use Rattle.def_forest.specs.Needs.{Allows, IsEdgeOf};
ghost use Rattle.qm_forest.specs.Needs.{ReachesMatched};
ghost use Rattle.qm_forest.specs.Ties.{fixed_of};

use crate::darts::{near, twin};
use crate::forest::Forest;
use def_forest::Label;
use qm_dual::SmallGraph;

impl Forest {
    /// The dart of an edge that begins in an outer blossom.
    pub fn outer_dart(&self, g: &SmallGraph, e: u32) -> u32
        requires { IsEdgeOf g.now.graph self.now e }
        ensures value { result ≡ outer_dart g.now.graph (forest_of self.now) e }
        ensures low { result < 2 * length g.now.graph.edges }
    {
        match self.label(self.outermost(g.edge(e).u)) {
            Label::Outer => 2 * e,
            _ => 2 * e + 1,
        }
    }

    /// The matched blossom outside the tree that an edge reaches becomes inner, and what it is matched to outer.
    pub fn grow(&mut self, g: &SmallGraph, e: u32)
        requires { Allows g.now.graph self.old e Grow }
        ensures changed { IsGrown (darts_of g.now.graph) (forest_of self.old) (forest_of self.new)
            (outer_dart g.now.graph (forest_of self.old) e) }
        ensures root { self.new.root ≡ self.old.root }
        ensures valid { IsValidFor g.now.graph self.new }
    {
        let d = self.outer_dart(g, e);
        self.grow_along(g, d);
    }

    /// A tree grows along a dart.
    fn grow_along(&mut self, g: &SmallGraph, d: u32)
        requires { ReachesMatched g.now.graph self.old d }
        ensures changed { IsGrown (darts_of g.now.graph) (forest_of self.old) (forest_of self.new) d }
        ensures root { self.new.root ≡ self.old.root }
        ensures hand { self.new.hand ≡ self.old.hand }
        ensures fixed { fixed_of self.new ≡ fixed_of self.old }
    {
        let v = near(g, twin(d));
        let reached = self.outermost(v);
        if let Some(m) = self.mate(reached) {
            self.set_label(v, Label::Inner);
            self.set_label(near(g, twin(m)), Label::Outer);
            self.set_link(reached, twin(d));
        }
    }
}
