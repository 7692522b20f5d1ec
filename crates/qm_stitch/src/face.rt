//! The faces of the new mesh, by number.

ghost use Rattle.std.specs.Prelude.{◌≡◌, ◌<◌};
ghost use Rattle.def_layout.specs.Layouts.{gluing_of, layout_of};
ghost use Rattle.def_remesh.specs.NewPoints.{lengths_in};
ghost use Rattle.def_written.specs.NewFaces.{face_count, new_face};
ghost use Rattle.qm_stitch.specs.Lengthened.{gluing_in, lengths_by};
ghost use Rattle.qm_stitch.specs.Cells.{IsCellOf};

use crate::numbered::Numbered;
use crate::size::size_at;
use qm_offsets::spot_in;

/// A cell of a patch, in a column and a row.
#[derive(Clone, Copy, Debug)]
pub struct Cell {
    patch: usize,
    i: u32,
    j: u32,
}

impl Numbered<'_> {
    /// Face f: the numbers of its corners.
    pub fn face(&self, f: u32) -> [u32; 4]
        requires { f < face_count (gluing_of (layout_of self.now.t.now))
            (lengths_in self.now.tables.now.lengths.items) }
        ensures { result ≡ new_face (gluing_of (layout_of self.now.t.now))
            (lengths_in self.now.tables.now.lengths.items) f }
    {
        let cell = cell_of(self, f);
        let (patch, i, j) = (cell.patch, cell.i, cell.j);
        [
            self.point(patch, i, j),
            self.point(patch, i + 1, j),
            self.point(patch, i + 1, j + 1),
            self.point(patch, i, j + 1),
        ]
    }
}

/// The cell of face f. Logarithmic in the patches.
fn cell_of(numbered: &Numbered, f: u32) -> Cell
    requires face { f < face_count (gluing_in numbered.now) (lengths_by numbered.now) }
    ensures { IsCellOf (gluing_in numbered.now) (lengths_by numbered.now) f result }
{
    let patch = spot_in(&numbered.tables.cells.begin, f);
    let cell = f - numbered.tables.cells.begin[patch];
    let wide = size_at(numbered, patch, 0);
    Cell {
        patch,
        i: cell % wide,
        j: cell / wide,
    }
}
