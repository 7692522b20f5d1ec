//! Expanding: an inner set of weight 0 leaves its place in the tree to its parts.

ghost use Rattle.std.specs.Prelude.{◌≡◌, ◌≢◌, ◌+◌, ◌%◌, ◌<◌, ◌≤◌, ◌==◌, ℕ, length, slice_index};
ghost use Rattle.std.specs.Prelude.{Some, None};
ghost use Rattle.def_forest.specs.Darts.{darts_of};
ghost use Rattle.def_forest.specs.Forests.{walk};
ghost use Rattle.def_forest.specs.Opened.{IsExpanding};
ghost use Rattle.def_forest.specs.Tables.{ForestTables, forest_of, IsOutermostIn, IsValidFor};
ghost use Rattle.def_forest.specs.Ways.{dart_or};
ghost use Rattle.def_forest.specs.declared.kinds.Label.TheVariants.{Outside};
ghost use Rattle.def_forest.specs.Needs.{IsUsedUp};
ghost use Rattle.qm_forest.specs.Parts.{IsPartable, HasOpened, IsCourse, side_dart, paired, hung, turn_label};
ghost use Rattle.qm_forest.specs.Ties.{HasSameNest, labelled, mated};

use crate::darts::{near, twin};
use crate::forest::Forest;
use def_forest::Label;
use qm_dual::SmallGraph;

/// A way along a ring: where it begins, how many blossoms it has, and whether the tree goes up along the ring.
#[derive(Clone, Copy, Debug, PartialEq, Eq)]
struct Course {
    front: u32,
    many: u32,
    forward: bool,
}

impl Forest {
    /// An inner set of weight 0 ends, and its parts become outermost, all of them matched. Those on the way of even
    /// length from its link to its mate become inner and outer by turns, the others are outside the tree.
    /// Takes the time of the parts, and of the vertices in them that do not keep their handle.
    pub fn expand(&mut self, g: &SmallGraph, b: u32)
        requires { IsUsedUp g.now.graph self.old b }
        ensures changed { IsExpanding (darts_of g.now.graph) (forest_of self.old) (forest_of self.new) b }
        ensures root { self.new.root ≡ self.old.root }
        ensures valid { IsValidFor g.now.graph self.new }
    {
        let many = self.parts(b);
        let mate = self.mate_dart(b);
        let link = self.link(b);
        self.open(b);
        let first = self.outermost(near(g, mate));
        let last = self.outermost(near(g, link));
        self.match_parts(first, many, mate);
        let course = self.course(first, last, many);
        self.hang_parts(course);
        self.set_link(last, link);
    }

    /// The dart by which a matched blossom is matched.
    fn mate_dart(&self, b: u32) -> u32
        requires { (forest_of self.now).mate b ≢ None }
        ensures { result ≡ dart_or ((forest_of self.now).mate b) }
    {
        match self.mate(b) {
            Some(d) => d,
            None => unreachable!(),
        }
    }

    /// A set leaves the tree, and is parted.
    fn open(&mut self, b: u32)
        requires outermost { IsOutermostIn self.old b }
        requires partable { (left : ForestTables) → forest_of left
            ≡ mated (labelled (forest_of self.old) b Outside) b None → HasSameNest self.old left → IsPartable left b }
        ensures { HasOpened self.old self.new b }
    {
        let v = self.leader(b);
        self.set_label(v, Label::Outside);
        self.set_mate(b, None);
        self.part(b);
    }

    /// Matches the blossoms of a ring in pairs, from the second on, and the first one by a dart of its own.
    #[tactic(auto, using(crate::proofs::Expandings::place_low))]
    fn match_parts(&mut self, first: u32, many: u32, mate: u32)
        requires some { 1 ≤ many }
        requires low { (k : ℕ) → k < many → walk (slice_index self.old.after) first k < length self.old.up }
        ensures seen { forest_of self.new ≡ mated (paired (forest_of self.old) first many) first (Some mate) }
        ensures same { HasSameNest self.old self.new }
    {
        let mut x = first;
        let mut before = x;
        for k in 0..many {
            let d = self.side_dart(before, x, k % 2 == 1);
            self.set_mate(x, Some(d));
            before = x;
            x = self.next(x);
        }
        self.set_mate(first, Some(mate));
    }

    /// The dart from a blossom of a ring to the next, or else to the one before.
    fn side_dart(&self, before: u32, x: u32, forward: bool) -> u32
        ensures { result ≡ side_dart (forest_of self.now) before x forward }
    {
        if forward {
            self.joint(x)
        } else {
            twin(self.joint(before))
        }
    }

    /// The way of even length between two blossoms of a ring.
    fn course(&self, first: u32, last: u32, many: u32) -> Course
        requires { (k : ℕ) × (k < many) × (walk (slice_index self.now.after) first k ≡ last) }
        ensures { IsCourse (slice_index self.now.after) first last many result }
    {
        let steps = self.distance(first, last, many);
        if steps % 2 == 0 {
            Course {
                front: first,
                many: steps + 1,
                forward: true,
            }
        } else {
            Course {
                front: last,
                many: many - steps + 1,
                forward: false,
            }
        }
    }

    /// How many steps it is along a ring from one blossom to another.
    fn distance(&self, first: u32, last: u32, many: u32) -> u32
        requires { (k : ℕ) × (k < many) × (walk (slice_index self.now.after) first k ≡ last) }
        ensures low { result < many }
        ensures at { walk (slice_index self.now.after) first result ≡ last }
    {
        let mut x = first;
        for k in 0..many {
            if x == last {
                return k;
            }
            x = self.next(x);
        }
        unreachable!()
    }

    /// The blossoms of a way along a ring become inner and outer by turns, each with its dart towards the root.
    fn hang_parts(&mut self, course: Course)
        requires { (k : ℕ) → k < course.many
            → IsOutermostIn self.old (walk (slice_index self.old.after) course.front k) }
        ensures seen { forest_of self.new ≡ hung (forest_of self.old) course.front course.many course.forward }
        ensures same { HasSameNest self.old self.new }
    {
        let mut x = course.front;
        let mut before = x;
        for k in 0..course.many {
            let v = self.leader(x);
            self.set_label(v, turn_label(k));
            let d = self.side_dart(before, x, course.forward);
            self.set_link(x, d);
            before = x;
            x = self.next(x);
        }
    }
}

/// Where the blossom at a place of a way stands that begins with an inner one.
fn turn_label(k: u32) -> Label
    ensures { result ≡ turn_label k }
{
    if k % 2 == 0 {
        Label::Inner
    } else {
        Label::Outer
    }
}
