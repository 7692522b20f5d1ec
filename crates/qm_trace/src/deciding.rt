//! How one ride ends, by the marks of the darts that are ridden at the same instant.

ghost use Rattle.std.specs.Prelude.{◌≡◌, ◌<◌, ◌+◌, ◌^◌, length};
ghost use Rattle.def_mesh.specs.Darts.{darts, twin_of};
ghost use Rattle.def_cut.specs.Motion.{after_ride, gives_way as gives_way_on, or_else, straight};
ghost use Rattle.def_cut.specs.Traced.{terrain_of};
ghost use Rattle.def_cut.specs.Events.{told};
ghost use Rattle.qm_trace.specs.Tables.{is_crowded as crowds, is_faced as faces_it, is_met_now, stop_here};

use crate::ground::Site;
use def_cut::{Moving, Stop};
use qm_mesh::Mesh;

/// Whether a rider by d1 gives way to one by d2: the dart after d2 is the twin of d1. It takes no memory.
pub fn gives_way(mesh: &Mesh, d1: u32, d2: u32) -> bool
    requires first { d1 < darts mesh.now }
    requires second { d2 < darts mesh.now }
    ensures { result ≡ gives_way_on (terrain_of mesh.now) d1 d2 }
{
    match mesh.twin(d1) {
        None => false,
        Some(twin) => twin == mesh.next(d2),
    }
}

/// A dart of a mesh by which a rider comes, and marks of all darts that are ridden at that instant.
#[derive(Clone, Copy)]
pub(crate) struct Arrival<'a> {
    pub(crate) mesh: &'a Mesh,
    pub(crate) taken: &'a [bool],
    pub(crate) dart: u32,
    pub(crate) ghost marks: { length taken.now ≡ darts mesh.now },
    pub(crate) ghost low: { dart < darts mesh.now },
}

impl Arrival<'_> {
    /// The rider after its ride, at a vertex of which this is known, when it has ridden so many darts before.
    pub(crate) fn ride(&self, site: Site, rides: u32) -> Moving
        requires { rides + 1 < 2 ^ 32 }
        ensures { result
            ≡ after_ride (terrain_of self.now.mesh.now) self.now.dart rides
            (stop_here self.now.mesh.now site self.now.taken.now self.now.dart) }
    {
        let rider = Moving {
            dart: self.dart,
            rides: rides + 1,
            stop: None,
        };
        self.tell(site, rider)
    }

    /// A rider that has ridden the dart, with its stop or its next dart.
    pub(crate) fn tell(&self, site: Site, rider: Moving) -> Moving
        ensures { result
            ≡ told (terrain_of self.now.mesh.now) self.now.dart rider
            (stop_here self.now.mesh.now site self.now.taken.now self.now.dart) }
    {
        let stop = self.stop(site);
        let dart = match stop {
            Some(_) => self.dart,
            None => self.next_dart(),
        };
        Moving {
            dart,
            rides: rider.rides,
            stop,
        }
    }

    /// The dart straight on, or the same one where there is none.
    fn next_dart(&self) -> u32
        ensures { result ≡ or_else (straight (terrain_of self.now.mesh.now) self.now.dart) self.now.dart }
    {
        match self.mesh.straight(self.dart) {
            Some(next) => next,
            None => self.dart,
        }
    }

    /// Why the rider stops, if it does, at a vertex of which this is known.
    fn stop(&self, site: Site) -> Option<Stop>
        ensures { result ≡ stop_here self.now.mesh.now site self.now.taken.now self.now.dart }
    {
        let vertex = self.mesh.to(self.dart);
        if self.is_met() {
            Some(Stop::Middle {
                from: self.mesh.from(self.dart),
                to: vertex,
            })
        } else if site.boundary {
            Some(Stop::Boundary { vertex })
        } else if site.singular {
            Some(Stop::Singular { vertex })
        } else if site.stood {
            Some(Stop::Trail { vertex })
        } else if self.is_crowded() {
            Some(Stop::Tie { vertex })
        } else {
            None
        }
    }

    /// Whether the twin of the dart is ridden, too.
    fn is_met(&self) -> bool
        ensures { result ≡ is_met_now (twin_of self.now.mesh.now self.now.dart) self.now.taken.now }
    {
        match self.mesh.twin(self.dart) {
            None => false,
            Some(twin) => self.taken[twin as usize],
        }
    }

    /// Whether some rider arrives to whom this one gives way, or from the opposite side.
    fn is_crowded(&self) -> bool
        ensures { result ≡ crowds self.now.mesh.now (twin_of self.now.mesh.now self.now.dart) self.now.taken.now }
    {
        match self.mesh.twin(self.dart) {
            None => false,
            Some(twin) => {
                let left = self.mesh.prev(twin);
                self.taken[left as usize] || self.is_faced(left)
            }
        }
    }

    /// Whether the dart before the twin of d is ridden now.
    fn is_faced(&self, d: u32) -> bool
        requires { d < darts self.now.mesh.now }
        ensures { result ≡ faces_it (twin_of self.now.mesh.now d) self.now.taken.now }
    {
        match self.mesh.twin(d) {
            None => false,
            Some(twin) => self.taken[self.mesh.prev(twin) as usize],
        }
    }
}
