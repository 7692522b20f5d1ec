//! The points of a refined mesh.

ghost use Rattle.std.specs.Prelude.{◌≡◌, ◌≤◌, ℕ, length, None, IfOk, IfErr, IsErrOf, OnOk};
ghost use Rattle.def_flow.specs.declared.limits.TheConstants.{MAX_LENGTH};
ghost use Rattle.def_layout.specs.Arcs.{long_at};
ghost use Rattle.def_layout.specs.Lengths.{AreLengths};
ghost use Rattle.def_layout.specs.Layouts.{gluing_of};
ghost use Rattle.def_remesh.specs.NewPoints.{lengths_in, multiple_of};
ghost use Rattle.def_remesh.specs.Refined.{refined_faces};
ghost use Rattle.def_remesh.specs.Stitched.{AreSafe, IsUnstitched, KeepsShapes};
ghost use Rattle.def_remesh.specs.declared.limits.TheConstants.{MAX_NEW_FACES};
ghost use Rattle.def_written.specs.NewFaces.{face_count};
ghost use Rattle.def_run.specs.declared.command.TheConstants.{MAX_MULTIPLE};

use crate::lengths::multiples;
use def_remesh::StitchFail;
use qm_stages::{CutMesh, Regridded, plan_over};
use std::alloc::Global;

/// The numbers and the places of the points of the mesh with `by` times the old lengths, evenly spaced. Linear in the
/// old mesh and in the new lengths of the sides of patches. It is refused as `TooFine` exactly where there are more
/// faces than a new mesh may have; no edge is ever doubled.
pub fn refined_points(alloc: Global, cut: CutMesh, by: u32) -> Result<Regridded, StitchFail>
    requires some { 1 ≤ by }
    requires few { by ≤ MAX_MULTIPLE }
    ensures new { IfOk result (λ new. (new.soup ≡ cut.soup) × (new.layout ≡ cut.layout)
        × (lengths_in new.lengths ≡ multiple_of by (long_at cut.layout.arcs)) × (new.shares ≡ None)) }
    ensures few { OnOk result (refined_faces by cut.layout ≤ MAX_NEW_FACES) }
    ensures shape { OnOk result (KeepsShapes cut.layout (multiple_of by (long_at cut.layout.arcs))) }
    ensures refused { IfErr result (IsUnstitched (gluing_of cut.layout) (multiple_of by (long_at cut.layout.arcs))) }
    ensures undoubled { (u v : ℕ) → ¬ IsErrOf result (StitchFail.Doubled u v) }
{
    let lengths = multiples(alloc, &cut, by)?;
    points_of(alloc, cut, &lengths)
}

/// The numbers and the places of the points of the mesh with these lengths.
fn points_of(alloc: Global, cut: CutMesh, lengths: &[u64]) -> Result<Regridded, StitchFail>
    requires long { length lengths.now ≡ length cut.layout.arcs }
    requires lengths { AreLengths (gluing_of cut.layout) (lengths_in lengths.now) }
    requires bounded { (arc : ℕ) → lengths_in lengths.now arc ≤ MAX_LENGTH }
    ensures new { IfOk result (λ new. new ≡ record {
      soup = cut.soup;
      layout = cut.layout;
      lengths = lengths.now;
      shares = None;
    }) }
    ensures few { OnOk result (face_count (gluing_of cut.layout) (lengths_in lengths.now) ≤ MAX_NEW_FACES) }
    ensures shape { OnOk result (KeepsShapes cut.layout (lengths_in lengths.now)) }
    ensures refused { IfErr result (IsUnstitched (gluing_of cut.layout) (lengths_in lengths.now)) }
    ensures safe { AreSafe cut.layout (lengths_in lengths.now)
        → (u v : ℕ) → ¬ IsErrOf result (StitchFail.Doubled u v) }
{
    let numbering = plan_over(alloc, &cut, lengths)?;
    let new = Regridded::new(alloc, cut, numbering, lengths, None)?;
    Ok(new)
}
