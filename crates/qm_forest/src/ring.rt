//! Laying the ring that an edge between two outer blossoms closes in the tree.

ghost use Rattle.std.specs.Prelude.{◌≡◌, ◌≢◌, ◌<◌, length, None};
ghost use Rattle.def_forest.specs.Darts.{darts_of};
ghost use Rattle.def_forest.specs.Forests.{set_at};
ghost use Rattle.def_forest.specs.Tables.{forest_of};
ghost use Rattle.def_forest.specs.Ways.{dart_or};
ghost use Rattle.forest_laws.specs.Climbing.{rise_of};
ghost use Rattle.qm_forest.specs.Needs.{WaysMeet};
ghost use Rattle.qm_forest.specs.Rings.{ringed, IsRingedAlike, MayClimb, laid_down, laid_up, laid_ring};

use crate::climbing::Fork;
use crate::darts::{near, twin};
use crate::forest::Forest;
use qm_dual::SmallGraph;

impl Forest {
    /// Lays the way down from where two ways meet to where the first begins, the edge over, and the second way up.
    pub(crate) fn lay_ring(&mut self, g: &SmallGraph, start: u32, fork: Fork)
        requires { WaysMeet g.now.graph self.old start fork.top fork.left fork.right }
        ensures seen { forest_of self.new
            ≡ laid_ring (darts_of g.now.graph) (forest_of self.old) start fork.left fork.right }
        ensures same { IsRingedAlike self.old self.new }
    {
        let a = self.outermost(near(g, start));
        let c = self.far_blossom(g, start);
        self.lay_down(g, a, fork.left);
        self.lay(a, c, start);
        self.lay_up(g, c, fork.right);
    }

    /// Lays so many steps of a way to the root, downwards.
    fn lay_down(&mut self, g: &SmallGraph, a: u32, steps: u32)
        requires from { MayClimb g.now.graph self.old a steps }
        ensures seen { forest_of self.new ≡ laid_down (darts_of g.now.graph) (forest_of self.old) a steps }
        ensures same { IsRingedAlike self.old self.new }
    {
        let mut x = a;
        for _ in 0..steps {
            let d = self.rise_from(x);
            let y = self.far_blossom(g, d);
            self.lay(y, x, twin(d));
            x = y;
        }
    }

    /// Lays so many steps of a way to the root, upwards.
    fn lay_up(&mut self, g: &SmallGraph, c: u32, steps: u32)
        requires from { MayClimb g.now.graph self.old c steps }
        ensures seen { forest_of self.new ≡ laid_up (darts_of g.now.graph) (forest_of self.old) c steps }
        ensures same { IsRingedAlike self.old self.new }
    {
        let mut x = c;
        for _ in 0..steps {
            let d = self.rise_from(x);
            let y = self.far_blossom(g, d);
            self.lay(x, y, d);
            x = y;
        }
    }

    /// The dart by which a blossom hangs on the next one, where there is one.
    fn rise_from(&self, b: u32) -> u32
        requires { rise_of (forest_of self.now) b ≢ None }
        ensures { result ≡ dart_or (rise_of (forest_of self.now) b) }
    {
        match self.rise(b) {
            Some(d) => d,
            None => unreachable!(),
        }
    }

    /// Puts a blossom after another, joined by a dart.
    fn lay(&mut self, x: u32, next: u32, dart: u32)
        requires { x < length self.old.up }
        ensures seen { forest_of self.new ≡ ringed (forest_of self.old)
            (set_at (forest_of self.old).nest.after x next) (set_at (forest_of self.old).nest.joint x dart) }
        ensures same { IsRingedAlike self.old self.new }
    {
        self.rings.after[x as usize] = next;
        self.rings.joint[x as usize] = dart;
    }
}
