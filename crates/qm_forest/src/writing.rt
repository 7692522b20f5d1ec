//! The matching and the dual that a forest comes to, written down without memory.

ghost use Rattle.std.specs.Prelude.{◌≡◌, ◌≢◌, ◌+◌, ◌*◌, ◌*ℤ◌, ◌^◌, ◌<◌, ◌≤◌, ℕ, List, pos, length, slice_index, None};
ghost use Rattle.std.specs.Vec.{vec_capacity};
ghost use Rattle.def_matching.specs.Matching.{WeightedGraph, IsPerfect, IsSmallGraph, Vertex, matching_cost};
ghost use Rattle.def_matching.specs.Dual.{dual, dual_sum, SaysYes};
ghost use Rattle.def_forest.specs.Forests.{Blossom};
ghost use Rattle.def_forest.specs.Tables.{forest_of, size_of, up_at, IsValidFor};
ghost use Rattle.def_forest.specs.Written.{IsDualOf};
ghost use Rattle.qm_forest.specs.Outlines.{AreDistinct, AreEntries, AreNames, AreWeights};
ghost use Rattle.qm_forest.specs.Outlines.{IsChosen, IsListOf, IsOutline};
ghost use Rattle.qm_forest.specs.Outlines.{entry_of, set_in};
ghost use Rattle.qm_forest.specs.Rounds.{AreInOrder, AreMarked, IsLaminar, IsSoundFor};
ghost use Rattle.qm_forest.specs.declared.rounds.Round.{Round};

use crate::forest::Forest;
use crate::matchings::list_marked;
use crate::numbers::read;
use crate::room::Room;
use crate::rounds::set_at;
use crate::tables::{Rings, Tree};
use def_matching::Dual;
use std::mem;

impl Forest {
    /// The matching, in increasing order, and the dual. Where all blossoms are matched the matching is perfect, and
    /// twice its cost is the sum of the dual. Linear, but for a logarithm of the sets.
    pub fn into_parts(mut self) -> (Vec<u32>, Dual)
        requires valid { (g : WeightedGraph) × IsSmallGraph g × IsValidFor g self }
        ensures yes { (g : WeightedGraph) → IsSmallGraph g → IsValidFor g self → SaysYes g (dual result.1) }
        ensures dual { IsDualOf (length self.hand) (forest_of self) (dual result.1) }
        ensures few { 2 * length result.1.z.items ≤ length self.hand }
        ensures perfect { (g : WeightedGraph) → IsSmallGraph g → IsValidFor g self
            → ((v : Vertex) → v < g.n → (forest_of self).mate ((forest_of self).out v) ≢ None)
            → IsPerfect g result.0.items × (dual_sum (dual result.1) ≡ (pos 2 *ℤ matching_cost g result.0.items)) }
    {
        match mem::replace(&mut self.room, None) {
            Some(room) => self.write_down(room),
            None => unreachable!(),
        }
    }
    /// Writes the matching and the dual into the room that there is.
    fn write_down(self, room: Room) -> (Vec<u32>, Dual)
        requires valid { (g : WeightedGraph) × IsSoundFor g self × (room ≡ size_of g) }
        ensures laminar { IsLaminar self }
        ensures outline { (sets : List (ℕ × Blossom)) × IsOutline self sets (dual result.1) }
        ensures chosen { (round : Round) × IsChosen self round
            × AreMarked round.marks.items (length round.marks.items) result.0.items }
    {
        let _ = &self.pool;
        let Room {
            vertices: _,
            mut round,
            mut sets,
            mut y,
            mut z,
        } = room;
        self.choose(&mut sets, &mut round);
        self.list_vertex_weights(&mut y);
        self.list_set_weights(&sets, &mut z);
        let (near, up) = self.list_entries(&sets);
        let mut edges = near;
        list_marked(&round.marks, &mut edges);
        (edges, Dual { y, z, up })
    }

    /// Lists the weights of the vertices.
    fn list_vertex_weights(&self, numbers: &mut Vec<i64>)
        requires { length self.now.hand ≤ vec_capacity numbers.old }
        ensures { AreWeights (forest_of self.now).weight (λ v. v) (length self.now.hand) numbers.new.items }
    {
        numbers.clear();
        for v in 0..self.vertices() {
            numbers.push(self.weight(v)).unwrap();
        }
    }

    /// Lists the weights of the sets of an order.
    fn list_set_weights(&self, sets: &[(u32, u32)], numbers: &mut Vec<i64>)
        requires { length sets.now ≤ vec_capacity numbers.old }
        ensures { AreWeights (forest_of self.now).weight (set_in sets.now) (length sets.now) numbers.new.items }
    {
        numbers.clear();
        for k in 0..sets.len() {
            numbers.push(self.weight(set_at(sets, k))).unwrap();
        }
    }

    /// Lists what is around the vertices and the sets, in a table of the forest. The table of the darts' starts, which
    /// is not needed any more, is handed out with it.
    #[tactic(auto, using(crate::proofs::Waitings::distinct))]
    fn list_entries(self, sets: &[(u32, u32)]) -> (Vec<u32>, Vec<u32>)
        requires order { AreInOrder self sets.now }
        ensures room { length self.near ≤ vec_capacity result.0 }
        ensures entries { (names : List ℕ) × AreNames sets.now (length sets.now) names
            × IsListOf (up_at self.up) names (length self.hand) (set_in sets.now) (length sets.now) result.1.items }
    {
        let vertices = self.vertices();
        let Forest {
            handles: _,
            lists: _,
            rings,
            trail: _,
            weights: _,
            tree,
            pool: _,
            room: _,
        } = self;
        let Rings {
            up,
            after: _,
            joint: _,
            head: mut entries,
            parts: _,
        } = rings;
        let Tree {
            label: _,
            mate: _,
            link: mut names,
            root: _,
            near,
        } = tree;
        name_sets(sets, &mut names);
        entries.clear();
        add_vertex_entries(&up, &names, vertices, &mut entries);
        add_set_entries(&up, &names, sets, &mut entries);
        (near, entries)
    }
}

/// Names the sets of an order: one more than their places.
fn name_sets(sets: &[(u32, u32)], names: &mut Vec<u32>)
    requires few { length sets.now ≤ 2 ^ 26 }
    requires low { (k : ℕ) → k < length sets.now → set_in sets.now k < length names.old.items }
    requires distinct { AreDistinct sets.now }
    ensures size { length names.new.items ≡ length names.old.items }
    ensures named { AreNames sets.now (length sets.now) names.new.items }
{
    for k in 0..sets.len() {
        names[set_at(sets, k) as usize] = k as u32 + 1;
    }
}

/// The name of the set around a blossom, or 0 where there is none.
fn entry_of(up: &[u32], names: &[u32], b: u32) -> u32
    ensures { result ≡ entry_of (up_at up.now) names.now b }
{
    let around = read(up, b, b);
    if around == b {
        0
    } else {
        read(names, around, 0)
    }
}

/// Adds the entries of the vertices.
fn add_vertex_entries(up: &[u32], names: &[u32], vertices: u32, entries: &mut Vec<u32>)
    requires empty { length entries.old.items ≡ 0 }
    requires room { vertices ≤ vec_capacity entries.old }
    ensures size { length entries.new.items ≡ vertices }
    ensures each { AreEntries (up_at up.now) names.now (λ v. v) 0 vertices entries.new.items }
    ensures room { vec_capacity entries.old ≤ vec_capacity entries.new }
{
    for v in 0..vertices {
        entries.push(entry_of(up, names, v)).unwrap();
    }
}

/// Adds the entries of the sets of an order.
fn add_set_entries(up: &[u32], names: &[u32], sets: &[(u32, u32)], entries: &mut Vec<u32>)
    requires { length entries.old.items + length sets.now ≤ vec_capacity entries.old }
    ensures size { length entries.new.items ≡ length entries.old.items + length sets.now }
    ensures kept { (k : ℕ) → k < length entries.old.items
        → slice_index entries.new.items k ≡ slice_index entries.old.items k }
    ensures each { AreEntries (up_at up.now) names.now (set_in sets.now) (length entries.old.items) (length sets.now)
        entries.new.items }
{
    for k in 0..sets.len() {
        entries.push(entry_of(up, names, set_at(sets, k))).unwrap();
    }
}
