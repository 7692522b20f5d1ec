//! Where new faces lie in the old mesh: the old cell in which each has its middle, and its corners, seen from there.

ghost use Rattle.std.specs.Prelude.{◌≡◌, ◌<◌, ◌≤◌, ◌+◌, ◌*◌, ◌/◌, ◌^◌, length, pos, ◌-ℤ◌};
ghost use Rattle.def_layout.specs.Lengths.{wide, high};
ghost use Rattle.def_layout.specs.Layouts.{gluing_of, layout_of};
ghost use Rattle.def_map.specs.Homes.{home_of};
ghost use Rattle.def_written.specs.Places.{ONE};
ghost use Rattle.def_remesh.specs.NewPoints.{lengths_in};
ghost use Rattle.def_remesh.specs.Placings.{shares_in};
ghost use Rattle.qm_place.specs.Spots.{seen_from, IsSmall};

use crate::grid::cell_at;
use crate::placed::Placed;
use crate::spots::{GridPoint, grid_point};
use crate::ways::EDGE;
use def_map::{Home, Seen};

impl Placed<'_> {
    /// Where the new face in column i and row j of a patch lies in the old mesh.
    #[tactic(auto, using(crate::proofs::Entries::patch_read))]
    pub fn home(&self, patch: usize, i: u32, j: u32) -> Home
        requires patch { patch < length self.now.t.now.patches.items }
        requires column { i < wide (gluing_of (layout_of self.now.t.now))
            (lengths_in self.now.tables.now.lengths.items) patch }
        requires row { j < high (gluing_of (layout_of self.now.t.now))
            (lengths_in self.now.tables.now.lengths.items) patch }
        ensures { result
            ≡ home_of (layout_of self.now.t.now) (shares_in self.now.tables.now.spaced)
            (lengths_in self.now.tables.now.lengths.items) patch i j }
    {
        let south_west = grid_point(self, patch, i, j);
        let south_east = grid_point(self, patch, i + 1, j);
        let north_east = grid_point(self, patch, i + 1, j + 1);
        let north_west = grid_point(self, patch, i, j + 1);
        let u = mean_of(south_west.u, south_east.u, north_east.u, north_west.u);
        let v = mean_of(south_west.v, south_east.v, north_east.v, north_west.v);
        let old = &self.t.patches[patch];
        let a = cell_at(old.w, u);
        let b = cell_at(old.h, v);
        Home {
            dart: old.cells[b as usize * old.w as usize + a as usize],
            corners: [
                seen_from(south_west, a, b),
                seen_from(south_east, a, b),
                seen_from(north_east, a, b),
                seen_from(north_west, a, b),
            ],
        }
    }
}

/// The mean of the parameters of four corners, rounded down.
fn mean_of(south_west: u64, south_east: u64, north_east: u64, north_west: u64) -> u64
    requires south { (south_west ≤ 2 ^ 53) × (south_east ≤ 2 ^ 53) }
    requires north { (north_east ≤ 2 ^ 53) × (north_west ≤ 2 ^ 53) }
    ensures { result ≡ (south_west + south_east + north_east + north_west) / 4 }
{
    (south_west + south_east + north_east + north_west) / 4
}

/// A grid point, as it is seen from the old cell in this column and row.
fn seen_from(point: GridPoint, column: u32, row: u32) -> Seen
    requires small { IsSmall point }
    requires cell { (column ≤ 2 ^ 21) × (row ≤ 2 ^ 21) }
    ensures { result ≡ seen_from point column row }
{
    Seen {
        s: beyond(point.u, column),
        t: beyond(point.v, row),
    }
}

/// How far a parameter lies beyond the beginning of an old column or row, below 0 where it lies before it.
fn beyond(parameter: u64, cell: u32) -> i64
    requires small { (parameter ≤ 2 ^ 53) × (cell ≤ 2 ^ 21) }
    ensures { result ≡ pos parameter -ℤ pos (cell * ONE) }
{
    parameter as i64 - (u64::from(cell) * EDGE) as i64
}
