//! A numbering of the points and faces of a layout with lengths.

ghost use Rattle.std.specs.Prelude.{◌≡◌, ◌<◌};
ghost use Rattle.def_layout.specs.Layouts.{gluing_of, layout_of, Layout};
ghost use Rattle.def_written.specs.NewFaces.{face_count, new_face};
ghost use Rattle.def_written.specs.Numbers.{vertices};
ghost use Rattle.def_remesh.specs.NewPoints.{lengths_in};
ghost use Rattle.def_remesh.specs.Numberings.{IsNumbering};

use crate::numbered::Numbered;
use crate::size::last_of;
use def_layout::TMesh;
use def_remesh::Tables;
use std::marker::Model;

/// The numbers of the points and the faces of a layout with lengths. Contracts see its tables.
#[derive(Debug, Drop)]
pub struct Numbering {
    pub(crate) tables: Tables,
}

impl Model for Numbering {
    ghost use Rattle.def_remesh.specs.Numberings.{HoldsFor};
    ghost use Rattle.def_remesh.specs.declared.tables.Tables.{Tables};

    ghost Value = { Tables };

    ghost view = { λ n. n.tables };

    ghost invariant = { λ n. HoldsFor n.tables };
}

impl Numbering {
    /// How many vertices there are.
    pub fn vertices(&self) -> u32
        ensures { (layout : Layout) → IsNumbering layout self.now
            → result ≡ vertices (gluing_of layout) (lengths_in self.now.lengths.items) }
    {
        self.tables.nodes + last_of(&self.tables.along.begin) + last_of(&self.tables.inside.begin)
    }

    /// How many faces there are.
    pub fn faces(&self) -> u32
        ensures { (layout : Layout) → IsNumbering layout self.now
            → result ≡ face_count (gluing_of layout) (lengths_in self.now.lengths.items) }
    {
        last_of(&self.tables.cells.begin)
    }

    /// Face f, for the layout that was numbered.
    pub fn face(&self, t: &TMesh, f: u32) -> [u32; 4]
        requires numbering { IsNumbering (layout_of t.now) self.now }
        requires face { f < face_count (gluing_of (layout_of t.now)) (lengths_in self.now.lengths.items) }
        ensures { result ≡ new_face (gluing_of (layout_of t.now)) (lengths_in self.now.lengths.items) f }
    {
        self.on(t).face(f)
    }

    /// The numbers with the layout that was numbered.
    pub fn on<'a>(&'a self, t: &'a TMesh) -> Numbered<'a>
        requires { IsNumbering (layout_of t.now) self.now }
        ensures layout { result.t.now ≡ t.now }
        ensures tables { result.tables.now ≡ self.now }
    {
        let tables = &self.tables;
        Numbered { t, tables }
    }
}
