//! The parameters of the grid points of a patch.

ghost use Rattle.std.specs.Prelude.{◌≡◌, ◌<◌, ◌≤◌, ◌+◌, ◌-◌, ◌*◌, ◌/◌, ℕ, length, slice_index};
ghost use Rattle.def_layout.specs.Arcs.{long_at};
ghost use Rattle.def_layout.specs.Lengths.{wide, high, AreLengths, Lengths};
ghost use Rattle.def_layout.specs.Layouts.{gluing_of, Layout};
ghost use Rattle.def_written.specs.Places.{cell_at, parameter_u, parameter_v, ArcSpacing};
ghost use Rattle.def_remesh.specs.Placings.{IsRim};
ghost use Rattle.qm_place.specs.Spots.{HasEnds, HasRoom, IsOnGrid};

use crate::ways::EDGE;
use def_remesh::Rim;

/// Grid point (i, j) of a patch of this size, whose parameters stand in a list.
#[derive(Clone, Copy)]
pub(crate) struct OnRim<'a> {
    pub parameters: &'a [u64],
    pub rim: Rim,
    pub i: u32,
    pub j: u32,
    ghost room: { HasRoom rim parameters.now },
    ghost grid: { IsOnGrid rim i j },
}

/// The parameter of a grid point from west to east: between those of the south and the north side of a patch that had
/// so many columns.
pub(crate) fn across(at: &OnRim, columns: u32) -> u64
    ensures { (layout : Layout) (new : Lengths) (spacing : ArcSpacing) (patch : ℕ) → patch < (gluing_of layout).patches
        → AreLengths (gluing_of layout) new → IsRim layout new spacing patch at.now.rim at.now.parameters.now
        → HasEnds layout new spacing patch
        → columns ≡ wide (gluing_of layout) (long_at layout.arcs) patch
        → result ≡ parameter_u (gluing_of layout) (long_at layout.arcs) new spacing patch at.now.i at.now.j }
{
    let rim = at.rim;
    let end = EDGE * u64::from(columns);
    let south = at_place(at.parameters, rim.begin, rim.wide, at.i, end);
    let north_begin = rim.begin + rim.wide as usize + rim.high as usize;
    let north = at_place(at.parameters, north_begin, rim.wide, rim.wide - at.i, 0);
    mean(south, north, at.j, rim.high)
}

/// Its parameter from south to north: between those of the west and the east side of a patch that had so many rows.
pub(crate) fn upright(at: &OnRim, rows: u32) -> u64
    ensures { (layout : Layout) (new : Lengths) (spacing : ArcSpacing) (patch : ℕ) → patch < (gluing_of layout).patches
        → AreLengths (gluing_of layout) new → IsRim layout new spacing patch at.now.rim at.now.parameters.now
        → HasEnds layout new spacing patch
        → rows ≡ high (gluing_of layout) (long_at layout.arcs) patch
        → result ≡ parameter_v (gluing_of layout) (long_at layout.arcs) new spacing patch at.now.i at.now.j }
{
    let rim = at.rim;
    let end = EDGE * u64::from(rows);
    let east_begin = rim.begin + rim.wide as usize;
    let east = at_place(at.parameters, east_begin, rim.high, at.j, end);
    let west_begin = east_begin + rim.high as usize + rim.wide as usize;
    let west = at_place(at.parameters, west_begin, rim.high, rim.high - at.j, 0);
    mean(west, east, at.i, rim.wide)
}

/// The parameter of a place of a side that has so many, whose parameters begin here, or that of the end of the side.
fn at_place(parameters: &[u64], begin: usize, places: u32, place: u32, end: u64) -> u64
    requires room { begin + places ≤ length parameters.now }
    ensures before { place < places → result ≡ slice_index parameters.now (begin + place) }
    ensures end { places ≤ place → result ≡ end }
{
    if place < places {
        parameters[begin + place as usize]
    } else {
        end
    }
}

/// Some of so many equal parts of the way from one parameter to another. Both are often the same, as at all points of a
/// refined mesh, and then nothing is divided.
fn mean(near: u64, far: u64, some: u32, parts: u32) -> u64
    requires { (some ≤ parts) × (0 < parts) }
    ensures { result ≡ (near * (parts - some) + far * some) / parts }
{
    if near == far {
        return near;
    }
    let sum = u128::from(near) * u128::from(parts - some) + u128::from(far) * u128::from(some);
    (sum / u128::from(parts)) as u64
}

/// The old column or row in which a parameter lies, of so many.
pub(crate) fn cell_at(cells: u32, parameter: u64) -> u32
    requires { 0 < cells }
    ensures value { result ≡ cell_at cells parameter }
    ensures low { result < cells }
{
    let cell = parameter / EDGE;
    if cell < u64::from(cells) {
        cell as u32
    } else {
        cells - 1
    }
}
