//! The queue of the riders that run.

ghost use Rattle.std.specs.Prelude.{◌≡◌, ◌<◌, ◌+◌, ◌^◌, ℕ, suc, Bool, List, length, map, filter, true, IfOk};
ghost use Rattle.std.specs.List.{range_with_len};
ghost use Rattle.def_cut.specs.Events.{rider_at};
ghost use Rattle.def_cut.specs.FullCut.{is_on};
ghost use Rattle.def_cut.specs.Motion.{begun, is_among};
ghost use Rattle.def_mesh.specs.Darts.{darts};
ghost use Rattle.def_mesh.specs.Vertices.{vertex_count};
ghost use Rattle.qm_trace.specs.Tables.{AreRode, CanRide, IsGround, IsInstant, IsSite, dart_of};
ghost use Rattle.qm_trace.specs.Tables.{is_running, rode, state_at};

use crate::Memory;
use crate::deciding::Arrival;
use crate::ground::{Ground, Site};
use def_cut::Moving;
use qm_mesh::Mesh;
use std::alloc::Global;

/// Riders, and the numbers of some of them.
#[derive(Clone, Copy)]
pub(crate) struct Queued<'a> {
    pub(crate) riders: &'a [Moving],
    pub(crate) queue: &'a [u32],
    pub(crate) ghost low: { (r : ℕ) → is_among r queue.now ≡ true → r < length riders.now },
}

impl Queued<'_> {
    /// The next darts of the riders in the queue.
    pub(crate) fn darts(&self, alloc: Global) -> Result<Vec<u32>, Memory>
        ensures { IfOk result (λ ds. ds.items ≡ map (dart_of self.now.riders.now) self.now.queue.now) }
    {
        let mut ridden = Vec::with_capacity(alloc, self.queue.len())?;
        for r in self.queue {
            ridden.push(self.riders[*r as usize].dart)?;
        }
        Ok(ridden)
    }

    /// The riders of the queue that still run.
    pub(crate) fn still_running(&self, alloc: Global) -> Result<Vec<u32>, Memory>
        ensures { IfOk result (λ q.
            q.items ≡ filter (λ r. is_running (rider_at self.now.riders.now r).stop) self.now.queue.now) }
    {
        let mut running = Vec::with_capacity(alloc, self.queue.len())?;
        for r in self.queue {
            let rider = self.riders[*r as usize];
            if runs(&rider) {
                running.push(*r)?;
            }
        }
        Ok(running)
    }
}

/// Whether a rider has not stopped.
fn runs(rider: &Moving) -> bool
    ensures { result ≡ is_running rider.now.stop }
{
    match rider.stop {
        None => true,
        Some(_) => false,
    }
}

/// All riders, by number.
#[tactic(auto, using(list_laws::proofs::Filters::range_more))]
pub(crate) fn everyone(alloc: Global, riders: u32) -> Result<Vec<u32>, Memory>
    ensures { IfOk result (λ q. q.items ≡ range_with_len 0 riders) }
{
    let mut queue = Vec::with_capacity(alloc, riders as usize)?;
    for r in 0..riders {
        queue.push(r)?;
    }
    Ok(queue)
}

/// The riders at the beginning.
pub(crate) fn first_riders(alloc: Global, starts: &[u32]) -> Result<Vec<Moving>, Memory>
    ensures { IfOk result (λ riders. riders.items ≡ map begun starts.now) }
{
    let mut riders = Vec::with_capacity(alloc, starts.len())?;
    for d in starts {
        riders.push(Moving {
            dart: *d,
            rides: 0,
            stop: None,
        })?;
    }
    Ok(riders)
}

/// What riders see at one instant.
#[derive(Debug, Drop)]
pub(crate) struct Sight {
    pub(crate) ground: Ground,
    pub(crate) stood: Vec<bool>,
    pub(crate) taken: Vec<bool>,
}

/// A mesh, and what riders on it see at one instant.
#[derive(Clone, Copy)]
pub(crate) struct Seen<'a> {
    pub(crate) mesh: &'a Mesh,
    pub(crate) sight: &'a Sight,
    pub(crate) ghost grounds: { IsGround mesh.now sight.now.ground.boundary.items sight.now.ground.singular.items },
    pub(crate) ghost vertices: { length sight.now.stood.items ≡ vertex_count mesh.now },
    pub(crate) ghost marks: { length sight.now.taken.items ≡ darts mesh.now },
}

impl Seen<'_> {
    /// Moves the riders of the queue, all by what they see at once: they are then those after the next step of the
    /// motion.
    pub(crate) fn ride_all(&self, queue: &[u32], riders: &mut Vec<Moving>)
        requires { CanRide self.now.mesh.now riders.old.items queue.now }
        ensures { (marks : List Bool) (k : ℕ)
            → IsInstant self.now.mesh.now marks k riders.old.items queue.now
            self.now.sight.now.stood.items self.now.sight.now.taken.items
            → riders.new.items ≡ (state_at self.now.mesh.now marks (suc k)).riders }
    {
        let _known = self.mesh.faces();
        self.ride_each(queue, riders);
    }

    /// Moves the riders of the queue.
    #[tactic(auto, using(motion_laws::proofs::Marks::among_at, crate::proofs::Tellings::rode_more))]
    fn ride_each(&self, queue: &[u32], riders: &mut [Moving])
        requires { CanRide self.now.mesh.now riders.old queue.now }
        ensures { AreRode self.now.mesh.now self.now.sight.now.stood.items self.now.sight.now.taken.items
            queue.now riders.old riders.new }
    {
        for r in queue {
            let rider = riders[*r as usize];
            riders[*r as usize] = self.ride_one(rider);
        }
    }

    /// The rider after its ride.
    fn ride_one(&self, rider: Moving) -> Moving
        requires dart { rider.dart < darts self.now.mesh.now }
        requires rides { rider.rides + 1 < 2 ^ 32 }
        ensures { result ≡ rode self.now.mesh.now self.now.sight.now.stood.items self.now.sight.now.taken.items rider }
    {
        let site = self.site(self.mesh.to(rider.dart));
        let arrival = Arrival {
            mesh: self.mesh,
            taken: &self.sight.taken,
            dart: rider.dart,
        };
        arrival.ride(site, rider.rides)
    }

    /// What stops a rider at v, looked up.
    fn site(&self, v: u32) -> Site
        requires { v < vertex_count self.now.mesh.now }
        ensures { IsSite self.now.mesh.now (is_on self.now.sight.now.stood.items v) v result }
    {
        let _known = self.mesh.faces();
        Site {
            boundary: self.sight.ground.boundary[v as usize],
            singular: self.sight.ground.singular[v as usize],
            stood: self.sight.stood[v as usize],
        }
    }
}
