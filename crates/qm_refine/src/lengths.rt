//! Multiples of the old lengths.

ghost use Rattle.std.specs.Prelude.{◌≡◌, ◌≤◌, ◌*◌, ℕ, length, map, IfOk};
ghost use Rattle.def_flow.specs.declared.limits.TheConstants.{MAX_LENGTH};
ghost use Rattle.def_layout.specs.Arcs.{long_at, Path};
ghost use Rattle.def_layout.specs.Lengths.{AreLengths};
ghost use Rattle.def_layout.specs.Layouts.{gluing_of};
ghost use Rattle.def_remesh.specs.NewPoints.{lengths_in, multiple_of};
ghost use Rattle.def_run.specs.declared.command.TheConstants.{MAX_MULTIPLE};

use qm_stages::CutMesh;
use std::alloc::{AllocError, Global};

/// The length of each arc, times this number. Linear in the arcs.
pub fn multiples(alloc: Global, cut: &CutMesh, by: u32) -> Result<Vec<u64>, AllocError>
    requires few { by ≤ MAX_MULTIPLE }
    ensures value { IfOk result (λ lengths.
        lengths.items ≡ map (λ (arc : Path). by * length arc.darts) cut.now.layout.arcs) }
    ensures multiple { IfOk result (λ lengths.
        lengths_in lengths.items ≡ multiple_of by (long_at cut.now.layout.arcs)) }
    ensures lengths { 1 ≤ by
        → IfOk result (λ lengths. AreLengths (gluing_of cut.now.layout) (lengths_in lengths.items)) }
    ensures bounded { IfOk result (λ lengths. (arc : ℕ) → lengths_in lengths.items arc ≤ MAX_LENGTH) }
{
    let layout = cut.layout();
    let mut lengths = Vec::with_capacity(alloc, layout.arcs.len())?;
    for arc in &layout.arcs {
        lengths.push(u64::from(by) * arc.darts.len() as u64)?;
    }
    Ok(lengths)
}
