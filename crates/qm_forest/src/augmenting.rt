//! Augmenting: the matching is changed along the way to the root, and the tree is given up.

ghost use Rattle.std.specs.Prelude.{◌≡◌, ◌<◌, ℕ, length, slice_index, slice_index_or, true, false, Some};
ghost use Rattle.std.specs.Prelude.{None};
ghost use Rattle.def_forest.specs.Darts.{darts_of};
ghost use Rattle.def_forest.specs.Forests.{Blossom};
ghost use Rattle.def_forest.specs.Steps.{with_mates, IsAugmented};
ghost use Rattle.def_forest.specs.Tables.{forest_of, outer_dart, IsValidFor};
ghost use Rattle.def_forest.specs.Valid.{IsValid};
ghost use Rattle.def_forest.specs.declared.kinds.EdgeKind.TheVariants.{Augment};
ghost use Rattle.def_forest.specs.declared.kinds.Label.TheVariants.{Outside};
ghost use Rattle.def_forest.specs.Needs.{Allows};
ghost use Rattle.qm_forest.specs.Needs.{ReachesFree};
ghost use Rattle.qm_forest.specs.Ties.{fixed_of, HasSameNest, relabelled, remated};

use crate::darts::{near, twin};
use crate::forest::Forest;
use def_forest::Label;
use qm_dual::SmallGraph;

impl Forest {
    /// The root and the unmatched blossom that an edge reaches become matched; no tree stands any more.
    pub fn augment(&mut self, g: &SmallGraph, e: u32)
        requires { Allows g.now.graph self.old e Augment }
        ensures changed { (r : Blossom) × (self.old.root ≡ Some r)
            × IsAugmented (darts_of g.now.graph) (forest_of self.old) (forest_of self.new) r
            (outer_dart g.now.graph (forest_of self.old) e) }
        ensures root { self.new.root ≡ None }
        ensures valid { IsValidFor g.now.graph self.new }
    {
        let start = self.outer_dart(g, e);
        self.rematch(g, start);
        self.end_search();
    }

    /// Changes the matching along the way from a dart that reaches an unmatched blossom up to the root.
    fn rematch(&mut self, g: &SmallGraph, start: u32)
        requires { ReachesFree g.now.graph self.old start }
        ensures seen { forest_of self.new ≡ remated (forest_of self.old) (forest_of self.new).mate }
        ensures same { HasSameNest self.old self.new }
        ensures done { let rematched = with_mates (forest_of self.old) (forest_of self.new).mate in
            (r : Blossom) → self.old.root ≡ Some r → IsValid (darts_of g.now.graph) rematched None
            × IsAugmented (darts_of g.now.graph) (forest_of self.old) rematched r start }
    {
        let reached = self.far_blossom(g, start);
        self.set_mate(reached, Some(twin(start)));
        let mut at = self.outermost(near(g, start));
        let mut next = start;
        while let Some(old) = self.mate(at) {
            self.set_mate(at, Some(next));
            let inner = self.far_blossom(g, old);
            let up = self.link(inner);
            self.set_mate(inner, Some(up));
            at = self.far_blossom(g, up);
            next = twin(up);
        }
        self.set_mate(at, Some(next));
    }

    /// Puts all blossoms outside: no tree stands. Takes the time of what the search touched.
    fn end_search(&mut self)
        ensures seen { forest_of self.new ≡ with_mates (forest_of self.old) (forest_of self.old).mate }
        ensures root { self.new.root ≡ None }
        ensures hand { self.new.hand ≡ self.old.hand }
        ensures fixed { fixed_of self.new ≡ fixed_of self.old }
    {
        for k in 0..self.trail_length() {
            let v = self.trail_at(k);
            self.set_label(v, Label::Outside);
        }
        self.forget_tree();
    }

    /// How many vertices are on the trail.
    fn trail_length(&self) -> usize
        ensures { result ≡ length self.now.trail }
    {
        self.trail.vertices.len()
    }

    /// A vertex on the trail.
    fn trail_at(&self, k: usize) -> u32
        requires { k < length self.now.trail }
        ensures value { result ≡ slice_index self.now.trail k }
        ensures low { result < length self.now.hand }
    {
        self.trail.vertices[k]
    }

    /// Forgets the tree where all blossoms are outside it.
    fn forget_tree(&mut self)
        requires { (k : ℕ) → k < length self.old.trail
            → (forest_of self.old).label ((forest_of self.old).out (slice_index self.old.trail k)) ≡ Outside }
        ensures seen { forest_of self.new ≡ relabelled (forest_of self.old) (λ b. Outside) }
        ensures root { self.new.root ≡ None }
        ensures hand { self.new.hand ≡ self.old.hand }
        ensures fixed { fixed_of self.new ≡ fixed_of self.old }
    {
        self.tree.root = None;
        self.weights.delta = 0;
        clear(&mut self.trail.touched, &self.trail.vertices);
        self.trail.vertices.clear();
    }
}

/// Takes the marks away that stand at some places.
fn clear(marks: &mut Vec<bool>, places: &[u32])
    requires { (k : ℕ) → k < length places.now → slice_index places.now k < length marks.old.items }
    ensures size { length marks.new.items ≡ length marks.old.items }
    ensures old { (v : ℕ) → slice_index_or marks.new.items v false ≡ true
        → slice_index_or marks.old.items v false ≡ true }
    ensures gone { (k : ℕ) → k < length places.now
        → slice_index_or marks.new.items (slice_index places.now k) false ≡ false }
{
    for place in places {
        marks[*place as usize] = false;
    }
}
