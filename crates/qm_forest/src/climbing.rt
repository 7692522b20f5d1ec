//! Climbing the tree one blossom at a time, and where two ways to the root meet.

ghost use Rattle.std.specs.Prelude.{◌≡◌, ◌^◌, ◌<◌, ◌≤◌, ℕ, length, min, Some};
ghost use Rattle.def_forest.specs.Darts.{darts_of, far};
ghost use Rattle.def_forest.specs.Tables.{forest_of};
ghost use Rattle.forest_laws.specs.Climbing.{rise_of, above_of, level_of, way_of, IsClimbing};
ghost use Rattle.def_forest.specs.Needs.{IsDartOf};
ghost use Rattle.qm_forest.specs.Needs.{AreInTree, Hangs, IsInTree};
ghost use Rattle.qm_forest.specs.Rings.{AreOnBoth, HasClimbed};

use crate::darts::{near, twin};
use crate::forest::Forest;
use def_forest::Label;
use qm_dual::SmallGraph;

/// Where two ways to the root meet, and how many steps it is from where each begins.
#[derive(Clone, Copy, Debug)]
pub(crate) struct Fork {
    pub(crate) top: u32,
    pub(crate) left: u32,
    pub(crate) right: u32,
}

impl Forest {
    /// The dart by which a blossom hangs on the next one towards the root.
    pub(crate) fn rise(&self, b: u32) -> Option<u32>
        ensures value { result ≡ rise_of (forest_of self.now) b }
        ensures few { length self.now.up ≤ 2 ^ 26 }
    {
        let _ = &self.rings;
        match self.label(b) {
            Label::Outer => self.mate(b),
            Label::Inner => Some(self.link(b)),
            Label::Outside => None,
        }
    }

    /// The outermost blossom that a dart reaches.
    #[tactic(auto, using(crate::proofs::OnWays::twin_dart, forest_laws::proofs::Bounds::are_darts))]
    pub fn far_blossom(&self, g: &SmallGraph, d: u32) -> u32
        requires { IsDartOf g.now.graph self.now d }
        ensures value { result ≡ (forest_of self.now).out (far (darts_of g.now.graph) d) }
        ensures low { result < length self.now.up }
    {
        self.outermost(near(g, twin(d)))
    }

    /// The next blossom towards the root, seen from a blossom of the tree that is not the root.
    #[tactic(auto, using(crate::proofs::Increases::rise_dart))]
    pub(crate) fn above(&self, g: &SmallGraph, b: u32) -> u32
        requires { Hangs g.now.graph self.now b }
        ensures value { result ≡ above_of (darts_of g.now.graph) (forest_of self.now) b }
        ensures low { result < length self.now.up }
    {
        match self.rise(b) {
            Some(d) => self.far_blossom(g, d),
            None => unreachable!(),
        }
    }

    /// The blossom so many steps towards the root, or the root where the way is shorter; and how many steps it is.
    fn climb(&self, g: &SmallGraph, b: u32, most: u32) -> (u32, u32)
        requires { IsInTree g.now.graph self.now b }
        ensures way { result.0 ≡ way_of (darts_of g.now.graph) (forest_of self.now) b result.1 }
        ensures steps { result.1 ≡ min most (level_of (darts_of g.now.graph) (forest_of self.now) b) }
    {
        let mut at = b;
        let mut count = 0;
        while let Some(d) = self.rise(at) {
            if count == most {
                return (at, count);
            }
            at = self.far_blossom(g, d);
            count += 1;
        }
        (at, count)
    }

    /// How many steps it is from a blossom of the tree to one towards the root, where it is at most so many.
    fn steps_to(&self, g: &SmallGraph, b: u32, goal: u32, most: u32) -> Option<u32>
        requires { IsInTree g.now.graph self.now b }
        ensures { (k : ℕ) → result ≡ Some k
            → HasClimbed (darts_of g.now.graph) (forest_of self.now) b goal k }
    {
        let mut at = b;
        let mut count = 0;
        while at != goal {
            match self.rise(at) {
                Some(d) if count < most => at = self.far_blossom(g, d),
                _ => return None,
            }
            count += 1;
        }
        Some(count)
    }

    /// How many steps it is from two blossoms of the tree to one that is on the ways of both to the root. One climber
    /// waits, each time twice as far up, and the other looks for it from below, twice as far. So it takes the time of
    /// the steps to where the ways meet, and not of those to the root.
    fn meeting(&self, g: &SmallGraph, a: u32, c: u32) -> (u32, u32)
        requires { AreInTree g.now.graph self.now a c }
        ensures both { AreOnBoth (darts_of g.now.graph) (forest_of self.now) a c result.0 result.1 }
        ensures few { length self.now.up ≤ 2 ^ 26 }
    {
        let mut at = a;
        let mut left = 0;
        let mut reach = 2u32;
        while self.rise(at).is_some() {
            if let Some(right) = self.steps_to(g, c, at, reach.saturating_mul(2)) {
                return (left, right);
            }
            let (next, steps) = self.climb(g, at, reach);
            at = next;
            left += steps;
            reach = reach.saturating_mul(2);
        }
        (left, self.climb(g, c, u32::MAX).1)
    }

    /// Where the ways from two blossoms of the tree to the root meet: the higher climber goes on.
    pub(crate) fn fork(&self, g: &SmallGraph, a: u32, c: u32) -> Fork
        requires { AreInTree g.now.graph self.now a c }
        ensures meeting { IsClimbing (darts_of g.now.graph) (forest_of self.now) a c result.top result.top
            result.left result.right }
        ensures few { length self.now.up ≤ 2 ^ 26 }
    {
        let (high, low) = self.meeting(g, a, c);
        let mut x = a;
        let mut y = c;
        let mut left = 0;
        let mut right = 0;
        while x != y {
            if high - left < low - right {
                y = self.above(g, y);
                right += 1;
            } else {
                x = self.above(g, x);
                left += 1;
            }
        }
        Fork {
            top: x,
            left,
            right,
        }
    }
}
