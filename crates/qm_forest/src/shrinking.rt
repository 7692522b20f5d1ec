//! Shrinking: the blossoms of a cycle of the tree become one.

ghost use Rattle.std.specs.Prelude.{◌≡◌, ◌*◌, ◌<◌, ℕ, length, slice_index};
ghost use Rattle.def_forest.specs.Darts.{darts_of};
ghost use Rattle.def_forest.specs.Forests.{walk};
ghost use Rattle.def_forest.specs.Shrunk.{IsShrinking};
ghost use Rattle.def_forest.specs.Tables.{ForestTables, forest_of, IsOutermostIn, IsValidFor};
ghost use Rattle.def_forest.specs.declared.kinds.EdgeKind.TheVariants.{Shrink};
ghost use Rattle.qm_forest.specs.Gathers.{IsFreeRing, HasClosed};
ghost use Rattle.def_forest.specs.Needs.{Allows};
ghost use Rattle.qm_forest.specs.Ties.{HasSameNest, left_alone};

use crate::darts::near;
use crate::forest::Forest;
use crate::numbers::read;
use def_forest::Label;
use qm_dual::SmallGraph;

impl Forest {
    /// The outermost blossoms on the cycle that an edge closes in the tree become one outer blossom of weight 0.
    /// Takes the time of the two ways from the edge to where they meet, and of the vertices in the smaller parts.
    pub fn shrink(&mut self, g: &SmallGraph, e: u32)
        requires { Allows g.now.graph self.old e Shrink }
        ensures changed { IsShrinking (darts_of g.now.graph) (forest_of self.old) (forest_of self.new) self.old.root
            self.new.root (2 * e) }
        ensures valid { IsValidFor g.now.graph self.new }
    {
        let start = 2 * e;
        let a = self.outermost(near(g, start));
        let c = self.far_blossom(g, start);
        let fork = self.fork(g, a, c);
        let mate = self.mate(fork.top);
        self.lay_ring(g, start, fork);
        self.close_ring(fork.top, fork.left + fork.right + 1, mate);
    }

    /// The blossoms of a ring leave the tree, and are gathered into one outer blossom.
    #[tactic(auto, using(forest_laws::proofs::Walks::listed_at))]
    fn close_ring(&mut self, top: u32, many: u32, mate: Option<u32>)
        requires tops { (k : ℕ) → k < many → IsOutermostIn self.old (walk (slice_index self.old.after) top k) }
        requires free { (left : ForestTables) → forest_of left ≡ left_alone (forest_of self.old) top many
            → HasSameNest self.old left → IsFreeRing left top many }
        ensures { HasClosed self.old self.new top many mate }
    {
        self.leave(top, many);
        let set = self.gather(top, many);
        let v = self.leader(set);
        self.set_label(v, Label::Outer);
        self.set_mate(set, mate);
    }

    /// The blossoms of a ring leave the tree, and have no mates any more.
    fn leave(&mut self, front: u32, many: u32)
        requires { (k : ℕ) → k < many → IsOutermostIn self.old (walk (slice_index self.old.after) front k) }
        ensures seen { forest_of self.new ≡ left_alone (forest_of self.old) front many }
        ensures same { HasSameNest self.old self.new }
    {
        let mut x = front;
        for _ in 0..many {
            let v = self.leader(x);
            self.set_label(v, Label::Outside);
            self.set_mate(x, None);
            x = self.next(x);
        }
    }

    /// A vertex of an outermost blossom.
    pub(crate) fn leader(&self, b: u32) -> u32
        requires { IsOutermostIn self.now b }
        ensures value { (forest_of self.now).out result ≡ b }
        ensures low { result < length self.now.hand }
        ensures blossom { b < length self.now.up }
    {
        self.lists.leader[b as usize]
    }

    /// The blossom after another on the ring.
    pub fn next(&self, b: u32) -> u32
        ensures { result ≡ slice_index self.now.after b }
    {
        read(&self.rings.after, b, 0)
    }
}
