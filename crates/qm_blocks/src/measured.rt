//! A layout with a length for each of its arcs, and a table of the spots of these.

ghost use Rattle.std.specs.Prelude.{◌≡◌, ◌*◌, length};
ghost use Rattle.def_layout.specs.Layouts.{layout_of};
ghost use Rattle.qm_blocks.specs.Spots.{IsMeasured};

use def_blocks::SideName;
use def_layout::TMesh;

/// A layout, and a length for each of its arcs.
#[derive(Clone, Copy)]
pub(crate) struct Measured<'a> {
    pub t: &'a TMesh,
    pub x: &'a [u64],
    ghost measured: { IsMeasured (layout_of t.now) x.now },
}

/// The same, with a table that has a place for each arc and direction.
#[derive(Clone, Copy)]
pub(crate) struct Spotted<'a> {
    pub measured: Measured<'a>,
    pub table: &'a [Option<(u32, SideName, u64)>],
    ghost long: { length table.now ≡ 2 * length measured.x.now },
}
