//! The runs that name arcs: those whose least dart is less than all twins of their darts.

ghost use Rattle.std.specs.Prelude.{◌≡◌, ◌<◌, ◌≤◌, ℕ, Some, length, slice_index, IfOk, MatchBool, MatchOption};
ghost use Rattle.def_mesh.specs.Darts.{darts, twin_of};
ghost use Rattle.def_mesh.specs.HalfEdges.{half_edges};
ghost use Rattle.def_cut.specs.Grids.{least_of};
ghost use Rattle.layout_laws.specs.Named.{run_name};
ghost use Rattle.qm_tmesh.specs.Tables.{IsMarked, IsNamedRun, AreStarts};

use crate::runs::{Start, run};
use qm_mesh::Mesh;
use std::alloc::{AllocError, Global};

/// For each name the first dart of the run that has it.
pub(crate) fn starts(
    alloc: Global,
    mesh: &Mesh,
    cut: &[bool],
    nodes: &[bool],
) -> Result<Vec<u32>, AllocError>
    requires { IsMarked mesh.now cut.now nodes.now }
    ensures { IfOk result (λ starts. AreStarts mesh.now cut.now (darts mesh.now) starts.items) }
{
    let mut starts = vec![in alloc; cut.len() as u32; cut.len()]?;
    for s in 0..cut.len() as u32 {
        if let Some(name) = named_run(alloc, mesh, cut, nodes, s)? {
            starts[name as usize] = s;
        }
    }
    Ok(starts)
}

/// The name of the arc, if a run that begins with s names it.
#[tactic(auto, using(crate::proofs::Walks::run_darts))]
fn named_run(
    alloc: Global,
    mesh: &Mesh,
    cut: &[bool],
    nodes: &[bool],
    s: u32,
) -> Result<Option<u32>, AllocError>
    requires marked { IsMarked mesh.now cut.now nodes.now }
    requires dart { s < darts mesh.now }
    ensures { IfOk result (λ o.
        MatchOption o ((n : ℕ) → ¬ IsNamedRun mesh.now cut.now s n)
        (λ name. (n : ℕ) × IsNamedRun mesh.now cut.now s n × (run_name (half_edges mesh.now) s n ≡ name))) }
{
    if !cut[s as usize] || !nodes[mesh.from(s) as usize] {
        return Ok(None);
    }
    let start = Start { mesh, cut, dart: s };
    let darts = run(alloc, &start, nodes)?;
    let name = least(&darts);
    if is_least(mesh, &darts, name) {
        Ok(Some(name))
    } else {
        Ok(None)
    }
}

/// The least of some darts.
fn least(darts: &[u32]) -> u32
    requires { 0 < length darts.now }
    ensures { result ≡ least_of darts.now }
{
    let mut least = darts[0];
    for d in darts {
        least = least.min(*d);
    }
    least
}

/// Whether a name is less than all twins of these darts.
fn is_least(mesh: &Mesh, run: &[u32], name: u32) -> bool
    requires { (k : ℕ) → k < length run.now → slice_index run.now k < darts mesh.now }
    ensures { MatchBool result
        ((k t : ℕ) → k < length run.now → twin_of mesh.now (slice_index run.now k) ≡ Some t → name < t)
        ((k : ℕ) × (t : ℕ) × (k < length run.now) × (twin_of mesh.now (slice_index run.now k) ≡ Some t) × (t ≤ name)) }
{
    for d in run {
        if let Some(t) = mesh.twin(*d) {
            if t <= name {
                return false;
            }
        }
    }
    true
}
