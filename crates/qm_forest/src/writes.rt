//! The writes that each keep the tables in order.

ghost use Rattle.std.specs.Prelude.{◌≡◌, ◌≢◌, ◌+ℤ◌, ◌-ℤ◌, ◌^◌, ◌<◌, ◌≤◌, pos, length, slice_index_or, unsigned_abs};
ghost use Rattle.std.specs.Prelude.{Option};
ghost use Rattle.def_forest.specs.Tables.{forest_of};
ghost use Rattle.def_forest.specs.declared.kinds.Label.TheVariants.{Outside};
ghost use Rattle.qm_forest.specs.Ties.{HasSameNest, IsOnTrail, labelled, mated, linked};

use crate::forest::Forest;
use crate::numbers::{hand_of, label_of, read, shift_at, top_of};
use def_forest::Label;

impl Forest {
    /// Gives an outermost blossom its mate.
    pub(crate) fn set_mate(&mut self, b: u32, mate: Option<u32>)
        requires { b < length self.old.up }
        ensures seen { forest_of self.new ≡ mated (forest_of self.old) b mate }
        ensures same { HasSameNest self.old self.new }
    {
        self.tree.mate[b as usize] = mate;
    }

    /// Gives an inner blossom its dart towards the root.
    pub(crate) fn set_link(&mut self, b: u32, link: u32)
        requires { b < length self.old.up }
        ensures seen { forest_of self.new ≡ linked (forest_of self.old) b link }
        ensures same { HasSameNest self.old self.new }
    {
        self.tree.link[b as usize] = link;
    }

    /// Gives the outermost blossom of a vertex another label. No weight and no potential changes.
    pub(crate) fn set_label(&mut self, v: u32, label: Label)
        requires { v < length self.old.hand }
        ensures seen { forest_of self.new ≡ labelled (forest_of self.old) ((forest_of self.old).out v) label }
        ensures same { HasSameNest self.old self.new }
        ensures trail { label ≡ Outside → self.new.trail ≡ self.old.trail }
    {
        if label != Label::Outside {
            self.touch(v);
        }
        self.write_label(v, label);
    }

    /// Puts a vertex on the trail, if it is not there.
    fn touch(&mut self, v: u32)
        requires { v < length self.old.hand }
        ensures here { IsOnTrail self.new.trail v }
        ensures others { self.new ≡ record self.old { trail = self.new.trail } }
    {
        if !self.trail.touched[v as usize] {
            self.trail.touched[v as usize] = true;
            self.trail.vertices.push(v).unwrap();
        }
    }

    /// Writes the label of the outermost blossom of a vertex, which is on the trail where that is in the tree.
    fn write_label(&mut self, v: u32, label: Label)
        requires low { v < length self.old.hand }
        requires here { label ≢ Outside → IsOnTrail self.old.trail v }
        ensures seen { forest_of self.new ≡ labelled (forest_of self.old) ((forest_of self.old).out v) label }
        ensures same { HasSameNest self.old self.new }
        ensures trail { self.new.trail ≡ self.old.trail }
    {
        let b = top_of(&self.handles.hand, &self.handles.top, v);
        let handle = hand_of(&self.handles.hand, v);
        let before = shift_at(label_of(&self.tree.label, b), self.weights.delta);
        let after = shift_at(label, self.weights.delta);
        let base = exchange(&self.weights.base, b, before, after);
        let off = exchange(&self.handles.off, handle, before, after);
        self.weights.base[b as usize] = base;
        self.handles.off[handle as usize] = off;
        self.tree.label[b as usize] = label;
    }
}

/// A number with one part of it taken for another.
fn exchange(numbers: &[i128], place: u32, before: i128, after: i128) -> i128
    requires small_before { unsigned_abs before ≤ 2 ^ 100 }
    requires small_after { unsigned_abs after ≤ 2 ^ 100 }
    requires small { unsigned_abs (slice_index_or numbers.now place (pos 0)) ≤ 2 ^ 101 }
    ensures value { result ≡ (slice_index_or numbers.now place (pos 0) +ℤ before) -ℤ after }
    ensures small { unsigned_abs result ≤ 2 ^ 103 }
{
    read(numbers, place, 0) + before - after
}
