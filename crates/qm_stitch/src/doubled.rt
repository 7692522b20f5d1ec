//! Where an edge of the new mesh is doubled.

ghost use Rattle.std.specs.Prelude.{IfErr, OnOk};
ghost use Rattle.def_layout.specs.Layouts.{gluing_of, layout_of};
ghost use Rattle.def_written.specs.Edges.{IsUndoubled};
ghost use Rattle.def_remesh.specs.NewPoints.{lengths_in};
ghost use Rattle.def_remesh.specs.Numberings.{IsNumbering};
ghost use Rattle.def_remesh.specs.Stitched.{IsUnstitched};

use crate::numbered::Numbered;
use crate::repeat::{greater, least_repeat, lesser};
use crate::rim::rim_keys;
use def_layout::TMesh;
use def_remesh::{StitchFail, Tables};
use std::alloc::Global;

/// Refuses lengths that double an edge, with the least pair of vertices where one is. n log n in the edges that have an
/// end on a side of a patch.
pub(crate) fn check_edges(alloc: Global, tables: &Tables, t: &TMesh) -> Result<(), StitchFail>
    requires { IsNumbering (layout_of t.now) tables.now }
    ensures undoubled { OnOk result (IsUndoubled (gluing_of (layout_of t.now)) (lengths_in tables.now.lengths.items)) }
    ensures refused { IfErr result (IsUnstitched (gluing_of (layout_of t.now)) (lengths_in tables.now.lengths.items)) }
{
    let numbered = Numbered { t, tables };
    match least_repeat(rim_keys(alloc, &numbered)?) {
        Some(key) => Err(StitchFail::Doubled {
            u: lesser(key),
            v: greater(key),
        }),
        None => Ok(()),
    }
}
