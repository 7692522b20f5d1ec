//! The twin of each dart, and the first dart along a directed edge that was taken before.
//!
//! The vertices are taken one by one. `by_end` then has, for each end of a dart that leaves the vertex, the first such
//! dart; a dart that arrives finds its twin there. So the work is linear in the darts, however many faces a vertex has.

ghost use Rattle.std.specs.Prelude.{◌≡◌, ◌≢◌, ◌<◌, ◌/◌, ℕ, length, OnOk, IfOk, IfErr, slice_index};
ghost use Rattle.def_mesh.specs.Darts.{darts, from_of, to_of};
ghost use Rattle.def_mesh.specs.Faults.{IsFirstTwice, IsFirstFault};
ghost use Rattle.def_mesh.specs.Manifold.{IsRepeatFree, HasEdgesOnce};
ghost use Rattle.def_mesh.specs.Vertices.{fan_of};
ghost use Rattle.qm_mesh.specs.Refusals.{IsRefusal};
ghost use Rattle.qm_mesh.specs.Tables.{AreFans};
ghost use Rattle.qm_mesh.specs.Pairs.{
  AreDarts,
  AreMarked,
  IsPartner,
  ArePartners,
  IsFirstAt,
  IsPairing,
  MarksOne,
  IsEarlier,
};

use crate::darts::{from, prev, runs, to};
use crate::fail::MeshFail;
use crate::fans::Fan;
use crate::quads::Quads;
use def_mesh::Place;
use std::alloc::Global;

/// Two darts along one directed edge.
#[derive(Clone, Copy, Debug, PartialEq, Eq)]
pub(crate) struct Doubled {
    pub(crate) earlier: u32,
    pub(crate) later: u32,
}

/// The partner of each dart: its twin, or itself where it has none. Linear in darts and vertices.
pub(crate) fn pair(alloc: Global, quads: &Quads, fans: &[Fan]) -> Result<Vec<u32>, MeshFail>
    requires repeat_free { IsRepeatFree quads.now.faces.now }
    requires fans { AreFans quads.now.faces.now quads.now.vertices fans.now }
    ensures ok { IfOk result (λ twins. ArePartners quads.now.faces.now twins.items) }
    ensures once { OnOk result (HasEdgesOnce quads.now.faces.now) }
    ensures err { IfErr result (IsRefusal quads.now.faces.now) }
{
    let by_end = vec![in alloc; 0u32; quads.vertices as usize]?;
    let mut ends = Ends {
        quads: *quads,
        by_end,
    };
    let mut twins = vec![in alloc; 0u32; 4 * quads.faces.len()]?;
    let twice = pair_all(&mut ends, fans, &mut twins);
    match twice {
        Some(doubled) => Err(MeshFail::NotManifold(edge_twice(quads.faces, doubled))),
        None => Ok(twins),
    }
}

/// The place of two darts along one directed edge.
fn edge_twice(faces: &[[u32; 4]], doubled: Doubled) -> Place
    requires repeat_free { IsRepeatFree faces.now }
    requires first { IsFirstTwice faces.now doubled.earlier doubled.later }
    ensures { IsFirstFault faces.now result }
{
    let Doubled { earlier, later } = doubled;
    Place::EdgeTwice {
        from: from(faces, later),
        to: to(faces, later),
        face1: earlier / 4,
        face2: later / 4,
    }
}

/// Takes all vertices, of each the darts that leave it and then those that arrive, and tells the first doubled edge.
fn pair_all(ends: &mut Ends, fans: &[Fan], twins: &mut [u32]) -> Option<Doubled>
    requires fans { AreFans ends.old.quads.faces.now ends.old.quads.vertices fans.now }
    requires long { length twins.old ≡ darts ends.old.quads.faces.now }
    ensures { IsPairing ends.old.quads.faces.now ends.old.quads.vertices twins.new result }
{
    let mut twice = None;
    for v in 0..ends.quads.vertices {
        let fan = fans[v as usize].as_slice();
        let found = ends.mark(v, fan);
        ends.pair_at(v, fan, twins);
        twice = earlier_pair(twice, found);
    }
    twice
}

/// The pair whose later dart is less.
fn earlier_pair(a: Option<Doubled>, b: Option<Doubled>) -> Option<Doubled>
    ensures { IsEarlier a b result }
{
    match (a, b) {
        (Some(a), Some(b)) => Some(if b.later < a.later { b } else { a }),
        (None, b) => b,
        (a, None) => a,
    }
}

/// For each vertex a dart, which ends there where one was kept.
#[derive(Drop)]
struct Ends<'a> {
    quads: Quads<'a>,
    by_end: Vec<u32>,
    ghost long: { length by_end.items ≡ quads.vertices },
    ghost are: { AreDarts quads.faces.now by_end.items },
}

impl Ends<'_> {
    /// Keeps the first dart from v to each of its ends, and tells the first dart that is a second one.
    fn mark(&mut self, v: u32, fan: &[u32]) -> Option<Doubled>
        requires { fan.now ≡ fan_of self.old.quads.faces.now v }
        ensures same { self.new.quads ≡ self.old.quads }
        ensures marked { AreMarked self.old.quads.faces.now v self.new.by_end.items }
        ensures first { IsFirstAt self.old.quads.faces.now v result }
    {
        let mut twice = None;
        for d in fan {
            let found = self.mark_one(v, *d);
            twice = twice.or(found);
        }
        twice
    }

    /// Takes the dart d, which leaves v.
    fn mark_one(&mut self, v: u32, d: u32) -> Option<Doubled>
        requires { d < darts self.old.quads.faces.now }
        ensures same { self.new.quads ≡ self.old.quads }
        ensures marks { MarksOne self.old.quads.faces.now v d self.old.by_end.items self.new.by_end.items result }
    {
        let faces = self.quads.faces;
        let end = to(faces, d);
        let earlier = self.by_end[end as usize];
        if earlier < d && runs(faces, earlier, v, end) {
            return Some(Doubled { earlier, later: d });
        }
        self.by_end[end as usize] = d;
        None
    }

    /// Writes the partner of each dart that arrives at v.
    fn pair_at(&self, v: u32, fan: &[u32], twins: &mut [u32])
        requires fan { fan.now ≡ fan_of self.now.quads.faces.now v }
        requires marked { AreMarked self.now.quads.faces.now v self.now.by_end.items }
        requires long { length twins.old ≡ darts self.now.quads.faces.now }
        ensures arriving { (e : ℕ) → e < darts self.now.quads.faces.now → to_of self.now.quads.faces.now e ≡ v
            → IsPartner self.now.quads.faces.now e (slice_index twins.new e) }
        ensures others { (e : ℕ) → to_of self.now.quads.faces.now e ≢ v → slice_index twins.new e
            ≡ slice_index twins.old e }
    {
        for d in fan {
            let e = prev(*d);
            twins[e as usize] = self.partner(v, e);
        }
    }

    /// The partner of the dart e, which arrives at v.
    fn partner(&self, v: u32, e: u32) -> u32
        requires dart { e < darts self.now.quads.faces.now }
        requires arrives { to_of self.now.quads.faces.now e ≡ v }
        requires marked { AreMarked self.now.quads.faces.now v self.now.by_end.items }
        ensures { IsPartner self.now.quads.faces.now e result }
    {
        let start = from(self.quads.faces, e);
        let leaving = self.by_end[start as usize];
        if runs(self.quads.faces, leaving, v, start) {
            leaving
        } else {
            e
        }
    }
}
