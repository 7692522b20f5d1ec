//! The whole text.

ghost use Rattle.std.specs.Prelude.{OnOk, OnErr};
ghost use Rattle.def_layout.specs.Layouts.{gluing_of};
ghost use Rattle.def_map.specs.MapText.{map_head, map_text};
ghost use Rattle.def_remesh.specs.NewPoints.{lengths_in};
ghost use Rattle.def_written.specs.NewFaces.{face_count};
ghost use Rattle.def_written.specs.Numbers.{vertices};

use crate::cells::put_cells;
use crate::lines::head_line;
use crate::vertices::put_vertices;
use def_output::Stopped;
use qm_output::Output;
use qm_stages::Regridded;

/// Puts the text that says where each vertex and each face of the new mesh lies in the old one: a line for each vertex,
/// then one for each face, in the order of the text of the new mesh. Linear; without memory.
pub fn put_map<T: Output>(out: &mut T, new: &Regridded) -> Result<(), Stopped>
    ensures whole { OnOk result (T.takes out.old out.new
        (map_text new.now.soup new.now.layout new.now.shares (lengths_in new.now.lengths))) }
    ensures part { OnErr result (T.stops out.old out.new
        (map_text new.now.soup new.now.layout new.now.shares (lengths_in new.now.lengths))) }
{
    put_head(out, new)?;
    put_vertices(out, new)?;
    put_cells(out, new)
}

/// Puts the first two lines.
fn put_head<T: Output>(out: &mut T, new: &Regridded) -> Result<(), Stopped>
    ensures whole { OnOk result (T.takes out.old out.new
        (map_head (vertices (gluing_of new.now.layout) (lengths_in new.now.lengths))
        (face_count (gluing_of new.now.layout) (lengths_in new.now.lengths)))) }
    ensures part { OnErr result (T.stops out.old out.new
        (map_head (vertices (gluing_of new.now.layout) (lengths_in new.now.lengths))
        (face_count (gluing_of new.now.layout) (lengths_in new.now.lengths)))) }
{
    out.put(head_line(new.vertices(), new.faces()).as_str().as_bytes())
}
