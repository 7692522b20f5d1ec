//! A layout and the tables that tell where its new points lie.

ghost use Rattle.def_layout.specs.Layouts.{layout_of};
ghost use Rattle.qm_place.specs.Placed.{ArePlaced};

use def_layout::TMesh;
use def_remesh::PlaceTables;

/// A layout, and tables that tell where its new points lie.
#[derive(Clone, Copy)]
pub struct Placed<'a> {
    pub t: &'a TMesh,
    pub tables: &'a PlaceTables,
    ghost placed: { ArePlaced (layout_of t.now) tables.now },
}
