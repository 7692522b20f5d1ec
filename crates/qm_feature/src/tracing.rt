//! The graph that is traced beside marked edges.

ghost use Rattle.std.specs.Prelude.{◌≡◌, ◌<◌, ◌&&◌, ◌||◌, not, true, is_some, ℕ, IfOk, length, cond, map};
ghost use Rattle.def_cut.specs.FullCut.{IsFullCut, is_on};
ghost use Rattle.def_cut.specs.Motion.{is_among};
ghost use Rattle.def_feature.specs.Marks.{AreMarks, is_break};
ghost use Rattle.def_feature.specs.Marked.{IsMarkedGraph, marked_starts as starts_beside};
ghost use Rattle.def_mesh.specs.Components.{start_darts};
ghost use Rattle.def_mesh.specs.Darts.{darts, from_of, twin_of};
ghost use Rattle.def_mesh.specs.Sources.{AreSources};
ghost use Rattle.def_mesh.specs.Vertices.{all_vertices, vertex_count};

use crate::Memory;
use crate::breaking::breaks;
use def_cut::Graph;
use def_mesh::Starts;
use qm_mesh::Mesh;
use qm_trace::graph_from;
use std::alloc::Global;

/// The graph that riders trace beside marked edges, for what `sources` gives of the mesh. It is a full cut that has
/// every marked edge. Linear in the darts.
pub fn trace_marked(
    alloc: Global,
    mesh: &Mesh,
    src: &Starts,
    marks: &[bool],
) -> Result<Graph, Memory>
    requires sources { AreSources mesh.now src.now }
    requires marks { AreMarks mesh.now marks.now }
    ensures graph { IfOk result (IsMarkedGraph mesh.now marks.now) }
    ensures cut { IfOk result (λ graph. IsFullCut mesh.now graph.covered.items) }
    ensures kept { IfOk result (λ graph. (d : ℕ) → d < darts mesh.now
        → is_on marks.now d ≡ true → is_on graph.covered.items d ≡ true) }
{
    let _known = mesh.faces();
    let breaks = breaks(alloc, mesh, marks)?;
    let starts = marked_starts(alloc, mesh, &src.starts, marks, &breaks)?;
    graph_from(alloc, mesh, &starts, marks)
}

/// The darts along which riders start beside marks, increasing, by those without marks and by where lines break. Linear
/// in the darts.
pub fn marked_starts(
    alloc: Global,
    mesh: &Mesh,
    starts: &[u32],
    marks: &[bool],
    breaks: &[bool],
) -> Result<Vec<u32>, Memory>
    requires starts { starts.now ≡ start_darts mesh.now }
    requires marks { length marks.now ≡ darts mesh.now }
    requires breaks { breaks.now ≡ map (is_break mesh.now marks.now) (all_vertices mesh.now) }
    ensures { IfOk result (λ found. found.items ≡ starts_beside mesh.now marks.now) }
{
    let darts = 4 * mesh.faces().len();
    let mut begun = vec![in alloc; false; darts]?;
    mark_starts(starts, &mut begun);
    let mut found = Vec::new(alloc);
    for d in 0..darts as u32 {
        if starts_at(
            begun[d as usize],
            leaves_break(mesh, breaks, d),
            marks[d as usize],
        ) {
            found.push(d)?;
        }
    }
    Ok(found)
}

/// Sets the marks of these darts.
pub(crate) fn mark_starts(starts: &[u32], begun: &mut [bool])
    requires { (d : ℕ) → is_among d starts.now ≡ true → d < length begun.old }
    ensures { (d : ℕ) → is_on begun.new d ≡ cond (is_among d starts.now) true (is_on begun.old d) }
{
    for d in starts {
        begun[*d as usize] = true;
    }
}

/// Whether d has a twin and leaves a break.
fn leaves_break(mesh: &Mesh, breaks: &[bool], d: u32) -> bool
    requires dart { d < darts mesh.now }
    requires long { length breaks.now ≡ vertex_count mesh.now }
    ensures { result ≡ (is_some (twin_of mesh.now d) && is_on breaks.now (from_of mesh.now d)) }
{
    mesh.twin(d).is_some() && breaks[mesh.from(d) as usize]
}

/// Whether a rider starts, by where it would without marks, by a break there, and by its mark.
fn starts_at(begun: bool, at_break: bool, marked: bool) -> bool
    ensures { result ≡ ((begun || at_break) && not marked) }
{
    (begun || at_break) && !marked
}
