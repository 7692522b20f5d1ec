//! The parts and the vertices of a blossom, for a caller that goes over them.

ghost use Rattle.std.specs.Prelude.{◌≡◌, ◌^◌, ◌<◌, ◌≤◌, ℕ, length, slice_index, true};
ghost use Rattle.std.specs.Vec.{vec_capacity};
ghost use Rattle.def_matching.specs.Matching.{Vertex};
ghost use Rattle.def_forest.specs.Forests.{walk};
ghost use Rattle.def_forest.specs.Tables.{forest_of};
ghost use Rattle.qm_forest.specs.Gathers.{IsListAt};
ghost use Rattle.def_forest.specs.Needs.{IsUsed};

use crate::forest::Forest;
use crate::numbers::read;
use crate::tables::Lists;

/// Lists the vertices of a blossom.
fn list_members(lists: &Lists, x: u32, list: &mut Vec<u32>)
    requires lists { IsListAt (length lists.now.following.items) lists.now x }
    requires room { length lists.now.following.items ≤ vec_capacity list.old }
    ensures count { length list.new.items ≡ slice_index lists.now.rank.items x }
    ensures each { (k : ℕ) → k < slice_index lists.now.rank.items x → slice_index list.new.items k
        ≡ walk (slice_index lists.now.following.items) (slice_index lists.now.first.items x) k }
    ensures room { vec_capacity list.old ≤ vec_capacity list.new }
{
    list.clear();
    let mut v = lists.first[x as usize];
    for _ in 0..lists.rank[x as usize] {
        list.push(v).unwrap();
        v = lists.following[v as usize];
    }
}

impl Forest {
    /// How many numbers blossoms may have, those of the vertices among them.
    pub fn numbers(&self) -> u32
        ensures value { result ≡ length self.now.up }
        ensures few { result ≤ 2 ^ 26 }
    {
        self.rings.up.len() as u32
    }

    /// The part of a set at which its ring begins.
    pub fn head(&self, b: u32) -> u32
        ensures { result ≡ slice_index self.now.head b }
    {
        read(&self.rings.head, b, 0)
    }

    /// How many parts a set has: none where the number is not in use.
    pub fn parts(&self, b: u32) -> u32
        ensures { result ≡ slice_index self.now.parts b }
    {
        read(&self.rings.parts, b, 0)
    }

    /// Lists the vertices of a blossom, in any order, in place of what was in the list. Linear in them.
    #[tactic(auto, using(forest_laws::proofs::Walks::listed_place))]
    pub fn members(&self, b: u32, list: &mut Vec<u32>)
        requires used { IsUsed self.now b }
        requires room { length self.now.hand ≤ vec_capacity list.old }
        ensures all { (v : Vertex) → v < length self.now.hand → (forest_of self.now).holds b v ≡ true
            → (k : ℕ) × (k < length list.new.items) × (slice_index list.new.items k ≡ v) }
        ensures low { (k : ℕ) → k < length list.new.items
            → slice_index list.new.items k < length self.now.hand }
        ensures room { vec_capacity list.old ≤ vec_capacity list.new }
    {
        list_members(&self.lists, b, list);
    }
}
