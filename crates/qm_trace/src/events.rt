//! Which events of a motion are possible.

ghost use Rattle.std.specs.Prelude.{◌≡◌, ◌<◌, ◌^◌, ℕ, true, false, length, Some, IfSome, IfNone};
ghost use Rattle.std.specs.List.{list_any};
ghost use Rattle.def_cut.specs.Events.{darts_in, is_waiting, leads_to, note_at, rider_at};
ghost use Rattle.def_cut.specs.FullCut.{is_on};
ghost use Rattle.def_cut.specs.Motion.{is_among};
ghost use Rattle.def_cut.specs.Traced.{terrain_of};
ghost use Rattle.def_mesh.specs.Darts.{darts, to_of};
ghost use Rattle.def_mesh.specs.Vertices.{vertex_count};

use def_cut::Moving;
use qm_mesh::Mesh;

/// The first rider that waits for its ride.
pub(crate) fn first_waiting(riders: &[Moving], noted: &[Option<u32>]) -> Option<u32>
    requires long { length noted.now ≡ length riders.now }
    requires few { length riders.now < 2 ^ 32 }
    ensures low { IfSome result (λ r. r < length riders.now) }
    ensures waits { IfSome result (λ r. is_waiting (rider_at riders.now r).stop (note_at noted.now r) ≡ true) }
    ensures none { IfNone result ((r : ℕ) → r < length riders.now
        → is_waiting (rider_at riders.now r).stop (note_at noted.now r) ≡ false) }
{
    'riders: for r in 0..riders.len() {
        if riders[r].stop.is_none() && noted[r].is_none() {
            return Some(r as u32);
        }
    }
    None
}

/// The first vertex that is not settled and where a dart ends that is noted for one of these riders.
pub(crate) fn first_open(
    mesh: &Mesh,
    queue: &[u32],
    noted: &[Option<u32>],
    settled: &[bool],
) -> Option<u32>
    requires notes { (r : ℕ) → is_among r queue.now ≡ true
        → (d : ℕ) × (note_at noted.now r ≡ Some d) × (d < darts mesh.now) }
    requires long { length settled.now ≡ vertex_count mesh.now }
    ensures end { IfSome result (λ v. list_any (leads_to (terrain_of mesh.now) v) (darts_in noted.now) ≡ true) }
    ensures unsettled { IfSome result (λ v. is_on settled.now v ≡ false) }
    ensures none { IfNone result ((r d : ℕ) → is_among r queue.now ≡ true → note_at noted.now r ≡ Some d
        → is_on settled.now (to_of mesh.now d) ≡ true) }
{
    let _known = mesh.faces();
    'queue: for r in queue {
        let d = noted[*r as usize].unwrap();
        let vertex = mesh.to(d);
        if !settled[vertex as usize] {
            return Some(vertex);
        }
    }
    None
}
