//! Where new points lie in the old mesh: on a dart of an arc, or in a cell of a patch.

ghost use Rattle.std.specs.Prelude.{◌≡◌, ◌<◌, ◌≤◌, ◌+◌, ◌-◌, ◌*◌, ◌/◌, ◌%◌, ◌^◌, ℕ, length};
ghost use Rattle.def_layout.specs.Arcs.{dart_at, long_at};
ghost use Rattle.def_layout.specs.Lengths.{wide};
ghost use Rattle.def_layout.specs.Layouts.{gluing_of};
ghost use Rattle.def_map.specs.Spots.{edge_spot, face_spot};
ghost use Rattle.def_written.specs.Numbers.{before_arc, before_patch};
ghost use Rattle.def_written.specs.Places.{ONE};
ghost use Rattle.def_remesh.specs.Placings.{rim_at};
ghost use Rattle.qm_place.specs.Lengthened.{lengths_by, layout_in, spacing_at};
ghost use Rattle.qm_place.specs.Spots.{grid_point, IsAlong, IsInside, IsOnGrid, IsSmall};

use crate::grid::{OnRim, across, cell_at, upright};
use crate::placed::Placed;
use crate::ways::EDGE;
use def_map::{EdgeSpot, FaceSpot};

/// An inner point of the arcs, counted from the first one, which lies on this arc.
pub(crate) fn along_spot(placed: &Placed, arc: usize, place: u32) -> EdgeSpot
    requires along { IsAlong (layout_in placed.now) (lengths_by placed.now) arc place }
    ensures { result ≡ edge_spot (layout_in placed.now) (spacing_at placed.now) arc
        (place - before_arc (lengths_by placed.now) arc + 1) }
{
    match &placed.tables.spaced {
        Some(spaced) => shared_spot(placed, arc, spaced.parameters[place as usize]),
        None => {
            let k = place - placed.tables.along.begin[arc] + 1;
            even_spot(placed, arc, k, placed.tables.lengths[arc])
        }
    }
}

/// Place k of so many equal parts of an arc.
#[tactic(auto, using(crate::proofs::Entries::arc_read, crate::proofs::Entries::dart_read))]
fn even_spot(placed: &Placed, arc: usize, k: u32, parts: u32) -> EdgeSpot
    requires arc { arc < length placed.now.t.now.arcs.items }
    requires place { (k < parts) × (parts ≤ 2 ^ 24) }
    requires low { k * long_at (layout_in placed.now).arcs arc / parts < long_at (layout_in placed.now).arcs arc }
    ensures dart { result.dart ≡ dart_at (layout_in placed.now).arcs arc
        (k * long_at (layout_in placed.now).arcs arc / parts) }
    ensures some { result.some ≡ k * long_at (layout_in placed.now).arcs arc % parts }
    ensures parts { result.parts ≡ parts }
{
    let darts = &placed.t.arcs[arc].darts;
    let way = u64::from(k) * darts.len() as u64;
    let parts = u64::from(parts);
    EdgeSpot {
        dart: darts[(way / parts) as usize],
        some: way % parts,
        parts,
    }
}

/// The place of an arc with this parameter.
fn shared_spot(placed: &Placed, arc: usize, parameter: u64) -> EdgeSpot
    requires arc { arc < length placed.now.t.now.arcs.items }
    requires low { parameter < ONE * long_at (layout_in placed.now).arcs arc }
    ensures { result ≡ record {
      dart = dart_at (layout_in placed.now).arcs arc (parameter / ONE);
      some = parameter % ONE;
      parts = ONE;
    } }
{
    let darts = &placed.t.arcs[arc].darts;
    EdgeSpot {
        dart: darts[(parameter / EDGE) as usize],
        some: parameter % EDGE,
        parts: EDGE,
    }
}

/// An inner point of the patches, counted from the first one, which lies in this patch.
#[tactic(auto, using(crate::proofs::Entries::offset_read))]
pub(crate) fn inside_spot(placed: &Placed, patch: usize, place: u32) -> FaceSpot
    requires inside { IsInside (layout_in placed.now) (lengths_by placed.now) patch place }
    ensures { result ≡ face_spot (layout_in placed.now) (lengths_by placed.now) (spacing_at placed.now) patch
        ((place - before_patch (gluing_of (layout_in placed.now)) (lengths_by placed.now) patch)
        % (wide (gluing_of (layout_in placed.now)) (lengths_by placed.now) patch - 1) + 1)
        ((place - before_patch (gluing_of (layout_in placed.now)) (lengths_by placed.now) patch)
        / (wide (gluing_of (layout_in placed.now)) (lengths_by placed.now) patch - 1) + 1) }
{
    let offset = place - placed.tables.inside.begin[patch];
    let row = placed.tables.rims[patch].wide - 1;
    cell_spot(placed, patch, offset % row + 1, offset / row + 1)
}

/// Grid point (i, j) of a patch, in the old cell where it lies.
#[tactic(auto, using(crate::proofs::Entries::patch_read))]
fn cell_spot(placed: &Placed, patch: usize, i: u32, j: u32) -> FaceSpot
    requires patch { patch < length placed.now.t.now.patches.items }
    requires grid { IsOnGrid (rim_at placed.now.tables.now.rims.items patch) i j }
    ensures { result ≡ face_spot (layout_in placed.now) (lengths_by placed.now) (spacing_at placed.now) patch i j }
{
    let point = grid_point(placed, patch, i, j);
    let old = &placed.t.patches[patch];
    let a = cell_at(old.w, point.u);
    let b = cell_at(old.h, point.v);
    FaceSpot {
        dart: old.cells[b as usize * old.w as usize + a as usize],
        s: point.u - u64::from(a) * EDGE,
        t: point.v - u64::from(b) * EDGE,
    }
}

/// The parameters of a grid point: from west to east, and from south to north.
#[derive(Clone, Copy)]
pub(crate) struct GridPoint {
    pub u: u64,
    pub v: u64,
}

/// Those of grid point (i, j) of a patch.
pub(crate) fn grid_point(placed: &Placed, patch: usize, i: u32, j: u32) -> GridPoint
    requires patch { patch < length placed.now.t.now.patches.items }
    requires grid { IsOnGrid (rim_at placed.now.tables.now.rims.items patch) i j }
    ensures value { result
        ≡ grid_point (layout_in placed.now) (lengths_by placed.now) (spacing_at placed.now) patch i j }
    ensures small { IsSmall result }
{
    let rim = placed.tables.rims[patch];
    let old = &placed.t.patches[patch];
    let at = OnRim {
        parameters: &placed.tables.parameters,
        rim,
        i,
        j,
    };
    let u = across(&at, old.w);
    let v = upright(&at, old.h);
    GridPoint { u, v }
}
