//! Where a search begins, and its shifts.

ghost use Rattle.std.specs.Prelude.{◌≡◌, Some};
ghost use Rattle.def_matching.specs.Matching.{WeightedGraph, IsGraph};
ghost use Rattle.def_forest.specs.Steps.{rooted, shifted};
ghost use Rattle.def_forest.specs.Tables.{forest_of, IsValidFor};
ghost use Rattle.def_forest.specs.Needs.{MayBegin, MayShift};
ghost use Rattle.qm_forest.specs.Ties.{fixed_of};

use crate::forest::Forest;
use def_forest::Label;
use qm_dual::SmallGraph;

impl Forest {
    /// Begins a search: the outermost blossom of a vertex, which is not matched, becomes the root and the whole tree.
    pub fn root(&mut self, v: u32)
        requires { MayBegin self.old v }
        ensures changed { forest_of self.new ≡ rooted (forest_of self.old) ((forest_of self.old).out v) }
        ensures root { self.new.root ≡ Some ((forest_of self.old).out v) }
        ensures valid { (g : WeightedGraph) → IsGraph g → IsValidFor g self.old → IsValidFor g self.new }
    {
        let b = self.outermost(v);
        self.set_label(v, Label::Outer);
        self.set_root(b);
    }

    /// Says which blossom is the root.
    fn set_root(&mut self, b: u32)
        ensures seen { forest_of self.new ≡ forest_of self.old }
        ensures hand { self.new.hand ≡ self.old.hand }
        ensures fixed { fixed_of self.new ≡ fixed_of self.old }
        ensures root { self.new.root ≡ Some b }
    {
        self.tree.root = Some(b);
    }

    /// Adds `t` at outer blossoms, and takes it away at inner ones.
    pub fn shift(&mut self, g: &SmallGraph, t: i64)
        requires { MayShift g.now.graph self.old t }
        ensures changed { forest_of self.new ≡ shifted (forest_of self.old) t }
        ensures root { self.new.root ≡ self.old.root }
        ensures valid { IsValidFor g.now.graph self.new }
    {
        let _ = g;
        if self.tree.root.is_some() {
            self.weights.delta += i128::from(t);
        }
    }
}
