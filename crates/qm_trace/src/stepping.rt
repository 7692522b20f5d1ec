//! One step of the motion: all riders of the queue ride at once.

ghost use Rattle.std.specs.Prelude.{◌≡◌, ◌+◌, ◌^◌, ◌<◌, ℕ, suc, Bool, List, map};
ghost use Rattle.qm_trace.specs.Tables.{IsGround, IsQueue, IsTableAt, dart_of};

use crate::marks::Trail;
use crate::queue::{Seen, Sight};
use def_cut::Moving;
use qm_mesh::Mesh;

/// The riders, the covered darts, and what riders see.
#[derive(Debug, Drop)]
pub(crate) struct Tables {
    pub(crate) riders: Vec<Moving>,
    pub(crate) covered: Vec<bool>,
    pub(crate) sight: Sight,
}

/// The tables after a step, in which the riders of the queue ride these darts. Linear in the queue.
pub(crate) fn step(mesh: &Mesh, queue: &[u32], ridden: &[u32], mut tables: Tables) -> Tables
    requires ground { IsGround mesh.now tables.sight.ground.boundary.items tables.sight.ground.singular.items }
    requires at { (marks : List Bool) × (k : ℕ) × (k + 1 < 2 ^ 32)
        × IsTableAt mesh.now marks k
        tables.riders.items tables.sight.stood.items tables.covered.items tables.sight.taken.items }
    requires queue { IsQueue tables.riders.items queue.now }
    requires ridden { ridden.now ≡ map (dart_of tables.riders.items) queue.now }
    ensures ground { IsGround mesh.now result.sight.ground.boundary.items result.sight.ground.singular.items }
    ensures at { (marks : List Bool) (k : ℕ)
        → IsTableAt mesh.now marks k
        tables.riders.items tables.sight.stood.items tables.covered.items tables.sight.taken.items
        → IsTableAt mesh.now marks (suc k)
        result.riders.items result.sight.stood.items result.covered.items result.sight.taken.items }
{
    let _known = mesh.faces();
    let trail = Trail {
        mesh,
        darts: ridden,
    };
    trail.set(true, &mut tables.sight.taken);
    let seen = Seen {
        mesh,
        sight: &tables.sight,
    };
    seen.ride_all(queue, &mut tables.riders);
    trail.set(false, &mut tables.sight.taken);
    trail.cover(&mut tables.covered);
    trail.stand(&mut tables.sight.stood);
    tables
}
