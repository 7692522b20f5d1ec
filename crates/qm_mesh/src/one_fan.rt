//! Whether the faces at each vertex form one fan: all its corners are met by turning from one of them, both ways.

ghost use Rattle.std.specs.Prelude.{
  ◌≡◌,
  ◌<◌,
  ℕ,
  length,
  false,
  OnOk,
  IfErr,
  MatchOption,
  MatchBool,
  IfSome,
};
ghost use Rattle.std.specs.Prelude.{slice_index, slice_index_or};
ghost use Rattle.def_mesh.specs.Manifold.{HasOneFan};
ghost use Rattle.qm_mesh.specs.Refusals.{IsRefusal};
ghost use Rattle.qm_mesh.specs.Tables.{HasTables};
ghost use Rattle.qm_mesh.specs.Turns.{
  beside_of,
  IsSeen,
  IsClosed,
  IsWalk,
  IsVisit,
  ArePlaces,
  AreSeen,
  HasUnseen,
  IsUnseen,
};

use crate::darts::{next, prev};
use crate::fail::MeshFail;
use crate::fans::Fan;
use def_mesh::Place;
use std::alloc::Global;

/// Refuses the least vertex with more than one fan. Linear in the darts.
pub(crate) fn check_fans(
    alloc: Global,
    faces: &[[u32; 4]],
    fans: &[Fan],
    twins: &[u32],
) -> Result<(), MeshFail>
    requires { HasTables faces.now fans.now twins.now }
    ensures ok { OnOk result ((v : ℕ) → HasOneFan faces.now v) }
    ensures err { IfErr result (IsRefusal faces.now) }
{
    let seen = vec![in alloc; false; 4 * faces.len()]?;
    let mut corners = Corners { twins, seen };
    for (v, fan) in fans.iter().enumerate() {
        if !corners.is_one_fan(fan.as_slice()) {
            return Err(MeshFail::NotManifold(Place::TwoFans { vertex: v as u32 }));
        }
    }
    Ok(())
}

/// Whether all these corners are marked.
fn are_seen(fan: &[u32], seen: &[bool]) -> bool
    requires { (t : ℕ) → t < length fan.now → slice_index fan.now t < length seen.now }
    ensures { MatchBool result (AreSeen seen.now fan.now) (HasUnseen seen.now fan.now) }
{
    for d in fan {
        if !seen[*d as usize] {
            return false;
        }
    }
    true
}

/// The corners that were met, in turning by the table of partners.
#[derive(Drop)]
struct Corners<'a> {
    twins: &'a [u32],
    seen: Vec<bool>,
    ghost places: { ArePlaces twins.now },
    ghost long: { length seen.items ≡ length twins.now },
}

impl Corners<'_> {
    /// Marks the corners that turns from the first of the fan reach, and tells whether these are all.
    fn is_one_fan(&mut self, fan: &[u32]) -> bool
        requires used { 0 < length fan.now }
        requires darts { (t : ℕ) → t < length fan.now → slice_index fan.now t < length self.old.twins.now }
        requires unseen { slice_index_or self.old.seen.items (slice_index fan.now 0) false ≡ false }
        ensures same { self.new.twins.now ≡ self.old.twins.now }
        ensures visit { IsVisit self.old.twins.now (slice_index fan.now 0) self.old.seen.items self.new.seen.items }
        ensures all { MatchBool result (AreSeen self.new.seen.items fan.now) (HasUnseen self.new.seen.items fan.now) }
    {
        let first = fan[0];
        self.turn_both_ways(first);
        are_seen(fan, &self.seen)
    }

    /// Marks the corners that turns from the first reach, to both sides.
    fn turn_both_ways(&mut self, first: u32)
        requires dart { first < length self.old.twins.now }
        requires unseen { slice_index_or self.old.seen.items first false ≡ false }
        ensures same { self.new.twins.now ≡ self.old.twins.now }
        ensures visit { IsVisit self.old.twins.now first self.old.seen.items self.new.seen.items }
    {
        self.seen[first as usize] = true;
        self.turn(true, first);
        self.turn(false, first);
    }

    /// Walks from the corner at start, always to one side, until it meets a mark or the boundary.
    fn turn(&mut self, left: bool, start: u32)
        requires dart { start < length self.old.twins.now }
        requires started { IsSeen self.old.seen.items start }
        ensures same { self.new.twins.now ≡ self.old.twins.now }
        ensures walk { IsWalk left self.old.twins.now start self.old.seen.items self.new.seen.items }
    {
        let mut at = start;
        while let Some(next) = self.unseen_beside(left, at) {
            self.seen[next as usize] = true;
            at = next;
        }
    }

    /// The corner beside that at `at`, unless it is marked.
    fn unseen_beside(&self, left: bool, at: u32) -> Option<u32>
        requires { at < length self.now.twins.now }
        ensures { MatchOption result (IsClosed left self.now.twins.now self.now.seen.items at)
            (IsUnseen left self.now.twins.now self.now.seen.items at) }
    {
        let found = self.beside(left, at)?;
        if self.seen[found as usize] {
            None
        } else {
            Some(found)
        }
    }

    /// The corner beside that at d round their vertex, to the left or to the right.
    fn beside(&self, left: bool, d: u32) -> Option<u32>
        requires { d < length self.now.twins.now }
        ensures value { result ≡ beside_of left self.now.twins.now d }
        ensures low { IfSome result (λ e. e < length self.now.twins.now) }
    {
        let edge = if left { prev(d) } else { d };
        let twin = self.twins[edge as usize];
        if twin == edge {
            return None;
        }
        Some(if left { twin } else { next(twin) })
    }
}
