//! A layout and the tables that number it.

ghost use Rattle.def_layout.specs.Layouts.{layout_of};
ghost use Rattle.qm_stitch.specs.Numbered.{AreTables};

use def_layout::TMesh;
use def_remesh::Tables;

/// A layout, and tables that number its points and its faces.
#[derive(Clone, Copy)]
pub struct Numbered<'a> {
    pub t: &'a TMesh,
    pub tables: &'a Tables,
    ghost numbers: { AreTables (layout_of t.now) tables.now },
}
