//! The matching edges of a blossom that match all of its vertices but one.

ghost use Rattle.std.specs.Prelude.{◌≡◌, ◌+◌, ◌^◌, ◌<◌, ◌≤◌, ℕ, false, length, replicate, IfOk, None};
ghost use Rattle.std.specs.Vec.{vec_capacity};
ghost use Rattle.def_matching.specs.Matching.{WeightedGraph, IsSmallGraph, Vertex};
ghost use Rattle.def_forest.specs.Forests.{Blossom};
ghost use Rattle.def_forest.specs.Tables.{forest_of, IsValidFor, MatchesBut};
ghost use Rattle.def_forest.specs.Needs.{IsHeld};
ghost use Rattle.qm_forest.specs.Rounds.{IsRound, HasRoom, AreInOrder, AreMarked};
ghost use Rattle.qm_forest.specs.Outlines.{IsChosen};

use crate::forest::Forest;
use crate::rounds::Round;
use crate::start::Memory;
use std::alloc::Global;

impl Forest {
    /// The matching edges that match all vertices of a blossom but one, in increasing order.
    pub fn matching_missing(&self, alloc: Global, b: u32, v: u32) -> Result<Vec<u32>, Memory>
        requires valid { (g : WeightedGraph) × IsSmallGraph g × IsValidFor g self.now }
        requires held { IsHeld self.now b v }
        ensures { IfOk result (λ m. (g : WeightedGraph) → IsSmallGraph g → IsValidFor g self.now
            → MatchesBut g (forest_of self.now) b v m.items) }
    {
        let mut round = self.new_round(alloc)?;
        let mut sets = Vec::with_capacity(alloc, round.left_out.len())?;
        let mut edges = Vec::with_capacity(alloc, round.marks.len())?;
        self.list_sets(&mut sets);
        self.match_up(b, v, &mut round);
        self.match_waiting(&sets, &mut round);
        list_marked(&round.marks, &mut edges);
        Ok(edges)
    }

    /// Chooses the edges that match the matched blossoms and all within them, and lists the sets, those with fewer
    /// vertices first.
    pub(crate) fn choose(&self, sets: &mut Vec<(u32, u32)>, round: &mut Round)
        requires sets { length self.now.up ≤ length self.now.hand + vec_capacity sets.old }
        requires room { HasRoom self.now round.old }
        requires begun { IsRound self.now round.old.marks.items round.old.left_out.items (λ b. 0) (λ b. 0) }
        ensures sets { AreInOrder self.now sets.new.items }
        ensures chosen { IsChosen self.now round.new }
    {
        self.list_sets(sets);
        self.match_mates(round);
        self.match_waiting(sets, round);
    }

    /// Room for the edges that are chosen and the sets that wait: there are none yet.
    fn new_round(&self, alloc: Global) -> Result<Round, Memory>
        requires { (g : WeightedGraph) × IsSmallGraph g × IsValidFor g self.now }
        ensures room { IfOk result (λ round. HasRoom self.now round) }
        ensures few { IfOk result (λ round. length round.marks.items ≤ 2 ^ 30) }
        ensures begun { IfOk result (λ round. (rest : Blossom → ℕ)
            → ((v : Vertex) → v < length self.now.hand → rest v ≤ 1)
            → IsRound self.now round.marks.items round.left_out.items rest rest) }
    {
        empty_round(alloc, self.tree.near.len() / 2, self.rings.up.len())
    }
}

/// No edge is chosen, and no set waits.
pub(crate) fn empty_round(alloc: Global, edges: usize, size: usize) -> Result<Round, Memory>
    ensures marks { IfOk result (λ round. round.marks.items ≡ replicate edges false) }
    ensures left_out { IfOk result (λ round. round.left_out.items ≡ replicate size None) }
{
    Ok(Round {
        marks: vec![in alloc; false; edges]?,
        left_out: vec![in alloc; None; size]?,
    })
}

/// Lists the numbers at which marks stand.
pub(crate) fn list_marked(marks: &[bool], list: &mut Vec<u32>)
    requires few { length marks.now ≤ 2 ^ 30 }
    requires room { length marks.now ≤ vec_capacity list.old }
    ensures { AreMarked marks.now (length marks.now) list.new.items }
{
    list.clear();
    for e in 0..marks.len() {
        add_marked(marks, e, list);
    }
}

/// Adds a number to a list, if its mark stands.
fn add_marked(marks: &[bool], e: usize, list: &mut Vec<u32>)
    requires few { e < 2 ^ 30 }
    requires low { e < length marks.now }
    requires room { length list.old.items < vec_capacity list.old }
    ensures marked { AreMarked marks.now e list.old.items → AreMarked marks.now (e + 1) list.new.items }
    ensures count { length list.new.items ≤ length list.old.items + 1 }
    ensures room { vec_capacity list.old ≤ vec_capacity list.new }
{
    if marks[e] {
        list.push(e as u32).unwrap();
    }
}
