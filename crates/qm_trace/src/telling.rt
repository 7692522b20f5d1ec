//! The riders of a motion, and how those that come to a vertex are told what becomes of them.

ghost use Rattle.std.specs.Prelude.{◌≡◌, ◌<◌, ℕ, length, slice_set};
ghost use Rattle.std.specs.List.{list_any};
ghost use Rattle.def_cut.specs.Events.{note_at, rider_at, told};
ghost use Rattle.def_cut.specs.FullCut.{is_on};
ghost use Rattle.def_cut.specs.Traced.{terrain_of};
ghost use Rattle.def_mesh.specs.Darts.{darts, prev_of};
ghost use Rattle.def_mesh.specs.Vertices.{fan_of, vertex_count};
ghost use Rattle.qm_trace.specs.Motions.{AreCounted, AreNotes, CanTell, MayTell, told_by};
ghost use Rattle.qm_trace.specs.Tables.{stop_here};

use crate::deciding::Arrival;
use crate::ground::Site;
use crate::notes::Notes;
use def_cut::Moving;
use qm_mesh::Mesh;

/// The riders, how many of them run, and how many have ridden in the open instant and are not told yet.
#[derive(Debug, Drop)]
pub(crate) struct Riders {
    pub(crate) list: Vec<Moving>,
    pub(crate) running: u32,
    pub(crate) untold: u32,
}

/// Whether some noted dart ends at v. Linear in the faces at v.
pub(crate) fn is_end(mesh: &Mesh, taken: &[bool], v: u32) -> bool
    requires vertex { v < vertex_count mesh.now }
    requires taken { length taken.now ≡ darts mesh.now }
    ensures { result ≡ list_any (λ e. is_on taken.now (prev_of e)) (fan_of mesh.now v) }
{
    for e in mesh.fan(v) {
        if taken[mesh.prev(*e) as usize] {
            return true;
        }
    }
    false
}

/// Tells each rider whose noted dart ends at v. Linear in the faces at v.
pub(crate) fn tell_all(mesh: &Mesh, notes: &Notes, site: Site, v: u32, riders: &mut Riders)
    requires vertex { v < vertex_count mesh.now }
    requires notes { AreNotes notes.now }
    requires can { CanTell mesh.now site v notes.now riders.old }
    requires counted { AreCounted riders.old notes.now.noted.items }
    ensures told { (r : ℕ) → rider_at riders.new.list.items r
        ≡ told_by mesh.now site notes.now.taken.items v (note_at notes.now.noted.items r)
        (rider_at riders.old.list.items r) }
    ensures counted { AreCounted riders.new notes.now.noted.items }
{
    for e in mesh.fan(v) {
        let d = mesh.prev(*e);
        if notes.taken[d as usize] {
            tell_one(mesh, notes, site, notes.places[d as usize], riders);
        }
    }
}

/// Tells one rider.
fn tell_one(mesh: &Mesh, notes: &Notes, site: Site, r: u32, riders: &mut Riders)
    requires may { MayTell mesh.now site notes.now riders.old.list.items r }
    requires taken { length notes.now.taken.items ≡ darts mesh.now }
    requires counted { AreCounted riders.old notes.now.noted.items }
    ensures list { riders.new.list.items ≡ slice_set riders.old.list.items r
        (told (terrain_of mesh.now) (rider_at riders.old.list.items r).dart (rider_at riders.old.list.items r)
        (stop_here mesh.now site notes.now.taken.items (rider_at riders.old.list.items r).dart)) }
    ensures counted { AreCounted riders.new notes.now.noted.items }
{
    let rider = riders.list[r as usize];
    let arrival = Arrival {
        mesh,
        taken: &notes.taken,
        dart: rider.dart,
    };
    let told = arrival.tell(site, rider);
    if told.stop.is_some() {
        riders.running -= 1;
    }
    riders.untold -= 1;
    riders.list[r as usize] = told;
}
