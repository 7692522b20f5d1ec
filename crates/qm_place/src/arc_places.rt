//! The arcs of a layout with their new lengths and the spacing of their points.

ghost use Rattle.std.specs.Prelude.{◌-◌, length};
ghost use Rattle.def_layout.specs.Layouts.{layout_of};
ghost use Rattle.def_remesh.specs.NewPoints.{lengths_in};
ghost use Rattle.def_remesh.specs.Numberings.{AreRunStarts};
ghost use Rattle.def_remesh.specs.Placings.{IsSpaced};
ghost use Rattle.qm_place.specs.ArcTables.{AreFine};

use def_layout::TMesh;
use def_remesh::{RunStarts, Spaced};

/// The arcs of a layout with their new lengths, where their inner points begin, and the spacing of these where it is by
/// shares.
#[derive(Clone, Copy)]
pub(crate) struct ArcPlaces<'a> {
    pub t: &'a TMesh,
    pub lengths: &'a [u32],
    pub along: &'a RunStarts,
    pub spaced: &'a Option<Spaced>,
    ghost fine: { AreFine (layout_of t.now) lengths.now },
    ghost begun: { AreRunStarts (λ a. lengths_in lengths.now a - 1) (length (layout_of t.now).arcs)
        along.now.begin.items },
    ghost inner: { IsSpaced (layout_of t.now) (lengths_in lengths.now) spaced.now },
}
