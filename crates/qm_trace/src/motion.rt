//! Riders who are moved one at a time, in any order that the rules allow.

ghost use Rattle.std.specs.Prelude.{◌≡◌, ◌↔◌, ◌<◌, ◌&&◌, ℕ, true, length, IfOk, Some, None};
ghost use Rattle.def_cut.specs.Events.{
  after_ride_of,
  after_settling,
  first_event_state,
  may_ride as rides_now,
  may_settle as settles_now,
  rider_at,
  NobodyRuns,
};
ghost use Rattle.def_cut.specs.FullCut.{is_on, IsFullCut};
ghost use Rattle.def_cut.specs.Traced.{IsGraphOf, terrain_of};
ghost use Rattle.def_mesh.specs.Sources.{AreSources};
ghost use Rattle.def_mesh.specs.Vertices.{vertex_count};
ghost use Rattle.def_cut.specs.Views.{with_state, IsMotionOn};

use crate::Memory;
use crate::ending::{close, tell_riders};
use crate::events::{first_open, first_waiting};
use crate::ground::site_at;
use crate::marks::{Trail, cover_edge};
use crate::notes::{Notes, clear, no_notes, note};
use crate::queue::first_riders;
use crate::telling::{Riders, is_end, tell_all};
use def_cut::{Graph, Moving, Rider, Stop};
use def_mesh::Starts;
use qm_mesh::Mesh;
use std::alloc::Global;
use std::marker::Model;

/// What may happen in a motion.
#[derive(Clone, Copy, Debug, PartialEq, Eq)]
pub enum Event {
    /// This rider rides its next dart.
    Ride { rider: u32 },
    /// This vertex is settled.
    Settle { vertex: u32 },
}

/// A motion of riders on a mesh, event by event. In each instant every running rider rides, one after another; then
/// each vertex where some of them end is settled, and its riders stop or go on. Contracts see the event state, and the
/// darts where the riders started. No call but `new` takes memory.
#[derive(Debug, Drop)]
pub struct Motion {
    riders: Riders,
    stood: Vec<bool>,
    covered: Vec<bool>,
    settled: Vec<bool>,
    notes: Notes,
    waits: u32,
    starts: Vec<u32>,
    told: Vec<Rider>,
}

impl Model for Motion {
    ghost use Rattle.std.specs.Vec.{vec_capacity};
    ghost use Rattle.def_cut.specs.Views.{MotionView};
    ghost use Rattle.qm_trace.specs.Motions.{IsKept};

    ghost Value = { MotionView };

    ghost view = { λ m. record {
      state = record {
        riders = m.riders.list.items;
        stood = m.stood.items;
        covered = m.covered.items;
        noted = m.notes.noted.items;
        settled = m.settled.items;
      };
      starts = m.starts.items;
    } };

    ghost invariant = { λ m.
        IsKept m.riders m.notes m.waits m.covered.items m.starts.items m.told.items (vec_capacity m.told) };
}

impl Motion {
    /// The motion before its first event, for what `sources` gives of the mesh. Linear in the darts.
    #[tactic(auto, using(crate::proofs::Ends::starts_few))]
    pub fn new(alloc: Global, mesh: &Mesh, src: &Starts) -> Result<Motion, Memory>
        requires { AreSources mesh.now src.now }
        ensures first { IfOk result (λ m. m.state ≡ first_event_state mesh.now) }
        ensures starts { IfOk result (λ m. m.starts ≡ src.now.starts.items) }
        ensures motion { IfOk result (IsMotionOn mesh.now) }
    {
        let darts = 4 * mesh.faces().len();
        let vertices = mesh.vertices() as usize;
        let many = src.starts.len();
        let list = first_riders(alloc, &src.starts)?;
        let nowhere = vec![in alloc; false; vertices]?;
        let trail = Trail {
            mesh,
            darts: &src.starts,
        };
        let stood = trail.leave(nowhere);
        let covered = vec![in alloc; false; darts]?;
        let settled = vec![in alloc; false; vertices]?;
        let notes = no_notes(alloc, many, darts)?;
        let starts = Vec::from_slice(alloc, &src.starts)?;
        let told = Vec::with_capacity(alloc, many)?;
        let riders = Riders {
            list,
            running: many as u32,
            untold: 0,
        };
        Ok(Motion {
            riders,
            stood,
            covered,
            settled,
            notes,
            waits: many as u32,
            starts,
            told,
        })
    }

    /// Whether rider r may ride now: it runs, and has not ridden in this instant.
    pub fn may_ride(&self, r: u32) -> bool
        requires { r < length self.now.starts }
        ensures { result ≡ rides_now self.now.state r }
    {
        self.riders.list[r as usize].stop.is_none() && self.notes.noted[r as usize].is_none()
    }

    /// Rider r rides its next dart.
    pub fn ride(&mut self, mesh: &Mesh, r: u32)
        requires motion { IsMotionOn mesh.now self.old }
        requires rider { r < length self.old.starts }
        requires possible { rides_now self.old.state r ≡ true }
        ensures event { self.new ≡ with_state self.old (after_ride_of (terrain_of mesh.now) self.old.state r) }
        ensures motion { IsMotionOn mesh.now self.new }
    {
        let _vertices = mesh.vertices();
        let rider = self.riders.list[r as usize];
        self.riders.list[r as usize] = Moving {
            rides: rider.rides + 1,
            ..rider
        };
        self.riders.untold += 1;
        self.waits -= 1;
        cover_edge(mesh, rider.dart, &mut self.covered);
        note(&mut self.notes, r, rider.dart);
    }

    /// Whether vertex v may be settled now: all running riders have ridden, some end at v, and it is not settled yet.
    /// Linear in the faces at v.
    pub fn may_settle(&self, mesh: &Mesh, v: u32) -> bool
        requires motion { IsMotionOn mesh.now self.now }
        requires vertex { v < vertex_count mesh.now }
        ensures { result ≡ settles_now (terrain_of mesh.now) self.now.state v }
    {
        let _known = mesh.faces();
        let ends = is_end(mesh, &self.notes.taken, v);
        all_hold(self.waits == 0, ends, !self.settled[v as usize])
    }

    /// Settles vertex v: each rider that ended there stops or goes on. Where it is the last of the instant, the next
    /// one begins. Linear in the faces at v, and at the end of an instant in the rides made in it.
    #[tactic(auto, using(crate::proofs::Noting::settle_low, crate::proofs::Fewer::settles))]
    pub fn settle(&mut self, mesh: &Mesh, v: u32)
        requires motion { IsMotionOn mesh.now self.old }
        requires possible { settles_now (terrain_of mesh.now) self.old.state v ≡ true }
        ensures event { self.new ≡ with_state self.old (after_settling (terrain_of mesh.now) self.old.state v) }
        ensures motion { IsMotionOn mesh.now self.new }
    {
        let _known = mesh.faces();
        let site = site_at(mesh, self.stood[v as usize], v);
        tell_all(mesh, &self.notes, site, v, &mut self.riders);
        self.stood[v as usize] = true;
        self.settled[v as usize] = true;
        if self.riders.untold == 0 {
            clear(mesh, &mut self.notes, &mut self.settled);
            self.waits = self.riders.running;
        }
    }

    /// Some possible event, or none exactly where the motion is over. Linear in the riders.
    pub fn possible(&self, mesh: &Mesh) -> Option<Event>
        requires { IsMotionOn mesh.now self.now }
        ensures rider { (r : ℕ) → result ≡ Some (Event.Ride r) → r < length self.now.starts }
        ensures rides { (r : ℕ) → result ≡ Some (Event.Ride r) → rides_now self.now.state r ≡ true }
        ensures settles { (v : ℕ) → result ≡ Some (Event.Settle v)
            → settles_now (terrain_of mesh.now) self.now.state v ≡ true }
        ensures over { (result ≡ None) ↔ NobodyRuns self.now.state }
    {
        let _known = mesh.faces();
        if let Some(rider) = first_waiting(&self.riders.list, &self.notes.noted) {
            return Some(Event::Ride { rider });
        }
        let vertex = first_open(mesh, &self.notes.queue, &self.notes.noted, &self.settled)?;
        Some(Event::Settle { vertex })
    }

    /// The dart that rider r rides next; of one that has ridden in this instant or has stopped, the last that it rode.
    pub fn next_dart(&self, r: u32) -> u32
        requires { r < length self.now.starts }
        ensures { result ≡ (rider_at self.now.state.riders r).dart }
    {
        self.riders.list[r as usize].dart
    }

    /// Whether some rider has ridden the edge of this dart.
    pub fn is_covered(&self, dart: u32) -> bool
        ensures { result ≡ is_on self.now.state.covered dart }
    {
        is_marked(&self.covered, dart)
    }

    /// Whether some rider has stood at this vertex.
    pub fn has_stood(&self, vertex: u32) -> bool
        ensures { result ≡ is_on self.now.state.stood vertex }
    {
        is_marked(&self.stood, vertex)
    }

    /// How many darts rider r has ridden, and its stop, or none while it runs.
    pub fn rider(&self, r: u32) -> (u32, Option<Stop>)
        requires { r < length self.now.starts }
        ensures rides { result.0 ≡ (rider_at self.now.state.riders r).rides }
        ensures stop { result.1 ≡ (rider_at self.now.state.riders r).stop }
    {
        let rider = self.riders.list[r as usize];
        (rider.rides, rider.stop)
    }

    /// Whether no rider runs any more.
    #[tactic(auto, using(crate::proofs::Counting::over_is))]
    pub fn is_over(&self) -> bool
        ensures { (result ≡ true) ↔ NobodyRuns self.now.state }
    {
        self.riders.running == 0
    }

    /// The graph that the riders leave: that of `trace`, whatever the order of the events was. Linear in the darts.
    pub fn into_graph(self, mesh: &Mesh) -> Graph
        requires motion { IsMotionOn mesh.now self }
        requires over { NobodyRuns self.state }
        ensures graph { IsGraphOf mesh.now result }
        ensures cut { IsFullCut mesh.now result.covered.items }
    {
        let _known = mesh.faces();
        let Motion {
            riders,
            covered,
            starts,
            told: mut riders_told,
            ..
        } = self;
        tell_riders(mesh, &starts, &riders.list, &mut riders_told);
        let covered = close(mesh, covered);
        Graph {
            covered,
            riders: riders_told,
        }
    }
}

/// Whether there is a mark at this place.
fn is_marked(marks: &[bool], place: u32) -> bool
    ensures { result ≡ is_on marks.now place }
{
    match marks.get(place as usize) {
        Some(mark) => *mark,
        None => false,
    }
}

/// Whether all of these hold.
fn all_hold(ridden: bool, ends: bool, fresh: bool) -> bool
    ensures { result ≡ (ridden && (ends && fresh)) }
{
    ridden && ends && fresh
}
