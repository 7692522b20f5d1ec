//! The motion from its beginning to its end, and the graph that it leaves.

ghost use Rattle.std.specs.Prelude.{◌≡◌, IfOk};
ghost use Rattle.def_cut.specs.FullCut.{IsFullCut};
ghost use Rattle.def_cut.specs.Traced.{IsGraphOf};
ghost use Rattle.def_feature.specs.Marks.{AreMarks};
ghost use Rattle.def_feature.specs.Marked.{IsMarkedGraph, marked_starts};
ghost use Rattle.def_mesh.specs.Sources.{AreSources};
ghost use Rattle.qm_trace.specs.Tables.{IsEnd};

use crate::Memory;
use crate::ending::{close, tell_riders};
use crate::queue::{Queued, everyone};
use crate::starting::{Course, first_tables};
use crate::stepping::{Tables, step};
use def_cut::Graph;
use def_mesh::Starts;
use qm_mesh::Mesh;
use std::alloc::Global;

/// The graph that riders trace, for what `sources` gives of the mesh. It is a full cut. Linear in the darts.
#[tactic(auto, using(feature_laws::proofs::First::same_starts))]
pub fn trace(alloc: Global, mesh: &Mesh, src: &Starts) -> Result<Graph, Memory>
    requires { AreSources mesh.now src.now }
    ensures graph { IfOk result (IsGraphOf mesh.now) }
    ensures cut { IfOk result (λ graph. IsFullCut mesh.now graph.covered.items) }
{
    let marks = vec![in alloc; false; 4 * mesh.faces().len()]?;
    graph_from(alloc, mesh, &src.starts, &marks)
}

/// The graph that riders trace beside marked edges, which are in it, where they start along these darts. It is a full
/// cut. Linear in the darts.
pub fn graph_from(
    alloc: Global,
    mesh: &Mesh,
    starts: &[u32],
    marks: &[bool],
) -> Result<Graph, Memory>
    requires marks { AreMarks mesh.now marks.now }
    requires starts { starts.now ≡ marked_starts mesh.now marks.now }
    ensures graph { IfOk result (IsMarkedGraph mesh.now marks.now) }
    ensures cut { IfOk result (λ graph. IsFullCut mesh.now graph.covered.items) }
{
    let _known = mesh.faces();
    let course = Course {
        mesh,
        starts,
        marks,
    };
    let end = last_tables(alloc, &course)?;
    let mut riders = Vec::with_capacity(alloc, starts.len())?;
    tell_riders(mesh, starts, &end.riders, &mut riders);
    let covered = close(mesh, end.covered);
    Ok(Graph { covered, riders })
}

/// The tables when no rider runs any more. Linear in the darts.
#[tactic(auto, using(crate::proofs::Ends::marked_few))]
fn last_tables(alloc: Global, course: &Course) -> Result<Tables, Memory>
    ensures { IfOk result (λ t. IsEnd course.now.mesh.now course.now.marks.now t.riders.items t.covered.items) }
{
    let _known = course.mesh.faces();
    let mut tables = first_tables(alloc, course)?;
    let mut queue = everyone(alloc, course.starts.len() as u32)?;
    'instants: for _ in 0..course.mesh.vertices() {
        if queue.is_empty() {
            break;
        }
        let now = Queued {
            riders: &tables.riders,
            queue: &queue,
        };
        let ridden = now.darts(alloc)?;
        tables = step(course.mesh, &queue, &ridden, tables);
        let next = Queued {
            riders: &tables.riders,
            queue: &queue,
        };
        queue = next.still_running(alloc)?;
    }
    Ok(tables)
}
