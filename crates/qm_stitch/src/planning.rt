//! The numbering of a new mesh in which no edge is doubled.

ghost use Rattle.std.specs.Prelude.{◌≡◌, ◌≤◌, ℕ, length, IfErr, IfOk, IsErrOf, OnOk};
ghost use Rattle.def_flow.specs.declared.limits.TheConstants.{MAX_LENGTH};
ghost use Rattle.def_layout.specs.Lengths.{AreLengths};
ghost use Rattle.def_layout.specs.Layouts.{gluing_of, layout_of};
ghost use Rattle.def_layoutnet.specs.MeshLayouts.{IsSomeLayout};
ghost use Rattle.def_written.specs.Edges.{IsUndoubled};
ghost use Rattle.def_remesh.specs.NewPoints.{lengths_in};
ghost use Rattle.def_remesh.specs.Numberings.{IsNumbering};
ghost use Rattle.def_remesh.specs.Stitched.{AreSafe, IsUnstitched, KeepsShapes};

use crate::build::number;
use crate::doubled::check_edges;
use crate::numbering::Numbering;
use crate::safe::are_safe;
use crate::stretched::Stretched;
use def_layout::TMesh;
use def_remesh::StitchFail;
use std::alloc::Global;

/// The numbering of the points and faces of the mesh that a layout gives at these lengths. It is refused as `TooFine`
/// exactly where that mesh has more faces than the limit, else as `Doubled` exactly where an edge is doubled, with the
/// least pair of vertices where one is. n log n in the edges that have an end on a side of a patch; lengths that are
/// safe are not searched.
pub fn plan(alloc: Global, t: &TMesh, lengths: &[u64]) -> Result<Numbering, StitchFail>
    requires layout { IsSomeLayout (layout_of t.now) }
    requires long { length lengths.now ≡ length t.now.arcs.items }
    requires lengths { AreLengths (gluing_of (layout_of t.now)) (lengths_in lengths.now) }
    requires bounded { (arc : ℕ) → lengths_in lengths.now arc ≤ MAX_LENGTH }
    ensures numbering { IfOk result (λ n. IsNumbering (layout_of t.now) n) }
    ensures lengths { IfOk result (λ n. n.lengths.items ≡ lengths.now) }
    ensures undoubled { OnOk result (IsUndoubled (gluing_of (layout_of t.now)) (lengths_in lengths.now)) }
    ensures shape { OnOk result (KeepsShapes (layout_of t.now) (lengths_in lengths.now)) }
    ensures refused { IfErr result (IsUnstitched (gluing_of (layout_of t.now)) (lengths_in lengths.now)) }
    ensures safe { AreSafe (layout_of t.now) (lengths_in lengths.now)
        → (u v : ℕ) → ¬ IsErrOf result (StitchFail.Doubled u v) }
{
    let stretched = Stretched { t, lengths };
    let numbering = number(alloc, &stretched)?;
    if are_safe(&stretched) {
        return Ok(numbering);
    }
    check_edges(alloc, &numbering.tables, t)?;
    Ok(numbering)
}
