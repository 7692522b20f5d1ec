//! The new mesh as a list of faces.

ghost use Rattle.std.specs.Prelude.{◌≡◌, ◌≤◌, ℕ, length, IfErr, IfOk, IsErrOf, OnOk};
ghost use Rattle.def_flow.specs.declared.limits.TheConstants.{MAX_LENGTH};
ghost use Rattle.def_layout.specs.Lengths.{AreLengths};
ghost use Rattle.def_layout.specs.Layouts.{gluing_of, layout_of};
ghost use Rattle.def_layoutnet.specs.MeshLayouts.{IsSomeLayout};
ghost use Rattle.def_written.specs.Edges.{IsUndoubled};
ghost use Rattle.def_written.specs.NewFaces.{new_faces};
ghost use Rattle.def_remesh.specs.NewPoints.{lengths_in};
ghost use Rattle.def_remesh.specs.Stitched.{AreSafe, IsNewMesh, IsUnstitched, KeepsShapes};
ghost use Rattle.qm_stitch.specs.Lengthened.{gluing_in, lengths_by};

use crate::numbered::Numbered;
use crate::planning::plan;
use crate::size::last_of;
use def_layout::TMesh;
use def_remesh::{NewMesh, StitchFail};
use std::alloc::{AllocError, Global};

/// The mesh that a layout gives at these lengths, with the refusals of `plan`. Linear in its faces, besides.
pub fn stitch(alloc: Global, t: &TMesh, lengths: &[u64]) -> Result<NewMesh, StitchFail>
    requires layout { IsSomeLayout (layout_of t.now) }
    requires long { length lengths.now ≡ length t.now.arcs.items }
    requires lengths { AreLengths (gluing_of (layout_of t.now)) (lengths_in lengths.now) }
    requires bounded { (arc : ℕ) → lengths_in lengths.now arc ≤ MAX_LENGTH }
    ensures mesh { IfOk result (IsNewMesh (layout_of t.now) (lengths_in lengths.now)) }
    ensures undoubled { OnOk result (IsUndoubled (gluing_of (layout_of t.now)) (lengths_in lengths.now)) }
    ensures shape { OnOk result (KeepsShapes (layout_of t.now) (lengths_in lengths.now)) }
    ensures refused { IfErr result (IsUnstitched (gluing_of (layout_of t.now)) (lengths_in lengths.now)) }
    ensures safe { AreSafe (layout_of t.now) (lengths_in lengths.now)
        → (u v : ℕ) → ¬ IsErrOf result (StitchFail.Doubled u v) }
{
    let numbering = plan(alloc, t, lengths)?;
    let faces = all_faces(alloc, &numbering.on(t))?;
    Ok(NewMesh {
        vertices: numbering.vertices(),
        faces,
    })
}

/// All faces, by their numbers.
fn all_faces(alloc: Global, numbered: &Numbered) -> Result<Vec<[u32; 4]>, AllocError>
    ensures { IfOk result (λ faces. faces.items ≡ new_faces (gluing_in numbered.now) (lengths_by numbered.now)) }
{
    let count = last_of(&numbered.tables.cells.begin);
    let mut faces = Vec::with_capacity(alloc, count as usize)?;
    for face in 0..count {
        faces.push(numbered.face(face))?;
    }
    Ok(faces)
}
