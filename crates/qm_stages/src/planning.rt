//! The numbering of a new mesh over a cut one.

ghost use Rattle.std.specs.Prelude.{◌≡◌, ◌≤◌, ℕ, length, IfErr, IfOk, IsErrOf, OnOk};
ghost use Rattle.def_flow.specs.declared.limits.TheConstants.{MAX_LENGTH};
ghost use Rattle.def_layout.specs.Lengths.{AreLengths};
ghost use Rattle.def_layout.specs.Layouts.{gluing_of};
ghost use Rattle.def_written.specs.Edges.{IsUndoubled};
ghost use Rattle.def_remesh.specs.NewPoints.{lengths_in};
ghost use Rattle.def_remesh.specs.Numberings.{IsNumbering};
ghost use Rattle.def_remesh.specs.Stitched.{AreSafe, IsUnstitched, KeepsShapes};

use crate::cut_mesh::CutMesh;
use def_remesh::StitchFail;
use qm_stitch::{Numbering, plan};
use std::alloc::Global;

/// The numbering of the points and faces of the mesh that the layout gives at these lengths, with the refusals and the
/// cost of `plan`.
pub fn plan_over(alloc: Global, cut: &CutMesh, lengths: &[u64]) -> Result<Numbering, StitchFail>
    requires long { length lengths.now ≡ length cut.now.layout.arcs }
    requires lengths { AreLengths (gluing_of cut.now.layout) (lengths_in lengths.now) }
    requires bounded { (arc : ℕ) → lengths_in lengths.now arc ≤ MAX_LENGTH }
    ensures numbering { IfOk result (λ n. IsNumbering cut.now.layout n) }
    ensures lengths { IfOk result (λ n. n.lengths.items ≡ lengths.now) }
    ensures undoubled { OnOk result (IsUndoubled (gluing_of cut.now.layout) (lengths_in lengths.now)) }
    ensures shape { OnOk result (KeepsShapes cut.now.layout (lengths_in lengths.now)) }
    ensures refused { IfErr result (IsUnstitched (gluing_of cut.now.layout) (lengths_in lengths.now)) }
    ensures safe { AreSafe cut.now.layout (lengths_in lengths.now)
        → (u v : ℕ) → ¬ IsErrOf result (StitchFail.Doubled u v) }
{
    plan(alloc, cut.layout(), lengths)
}
