//! The sets of a forest, those with fewer vertices first: each after the sets that lie in it.

ghost use Rattle.std.specs.Prelude.{◌≡◌, ◌+◌, ◌<◌, ◌≤◌, ℕ, length, slice_index};
ghost use Rattle.std.specs.List.Sorted.{IsNonDecreasingBy, IsPermutation};
ghost use Rattle.std.specs.Vec.{vec_capacity};
ghost use Rattle.qm_forest.specs.Rounds.{AreInOrder, HasSets};

use crate::forest::Forest;
use crate::numbers::read;

impl Forest {
    /// Lists the sets in use, each with how many vertices it has.
    pub(crate) fn list_sets(&self, sets: &mut Vec<(u32, u32)>)
        requires { length self.now.up ≤ length self.now.hand + vec_capacity sets.old }
        ensures { AreInOrder self.now sets.new.items }
    {
        sets.clear();
        for b in self.vertices()..self.rings.up.len() as u32 {
            self.list_set(b, sets);
        }
        sort(sets);
    }

    /// Lists a set, if its number is in use.
    fn list_set(&self, b: u32, sets: &mut Vec<(u32, u32)>)
        requires high { length self.now.hand ≤ b }
        requires room { length sets.old.items < vec_capacity sets.old }
        ensures has { HasSets self.now b sets.old.items → HasSets self.now (b + 1) sets.new.items }
        ensures count { length sets.new.items ≤ length sets.old.items + 1 }
        ensures room { vec_capacity sets.old ≤ vec_capacity sets.new }
    {
        if self.parts(b) != 0 {
            sets.push((self.size(b), b)).unwrap();
        }
    }

    /// How many vertices a blossom has.
    pub(crate) fn size(&self, b: u32) -> u32
        ensures { result ≡ slice_index self.now.rank b }
    {
        read(&self.lists.rank, b, 0)
    }
}

/// Sorts pairs.
#[tactic(auto, using(crate::proofs::Waitings::firsts_rise))]
fn sort(sets: &mut Vec<(u32, u32)>)
    ensures moved { IsPermutation sets.old.items sets.new.items }
    ensures increasing { IsNonDecreasingBy (λ (set : ℕ × ℕ). set.0) sets.new.items }
{
    sets.sort_unstable();
}
