//! The lines of the new faces.

ghost use Rattle.std.specs.Prelude.{◌<◌, OnOk, OnErr, length};
ghost use Rattle.std.specs.List.{flat_map};
ghost use Rattle.def_map.specs.MapText.{cell_front, cell_line, cell_lines, seen_text};
ghost use Rattle.def_remesh.specs.NewPoints.{lengths_in};
ghost use Rattle.qm_map.specs.PatchLines.{patch_lines};

use crate::lines::{cell_front, seen_text};
use def_map::{Home, Seen};
use def_output::Stopped;
use qm_output::Output;
use qm_stages::Regridded;

/// Puts a line for each face, patch by patch.
pub(crate) fn put_cells<T: Output>(out: &mut T, new: &Regridded) -> Result<(), Stopped>
    ensures whole { OnOk result (T.takes out.old out.new
        (cell_lines new.now.layout new.now.shares (lengths_in new.now.lengths))) }
    ensures part { OnErr result (T.stops out.old out.new
        (cell_lines new.now.layout new.now.shares (lengths_in new.now.lengths))) }
{
    for patch in 0..new.cut().layout().patches.len() {
        put_patch(out, new, patch)?;
    }
    Ok(())
}

/// Puts a line for each face of a patch, row by row.
fn put_patch<T: Output>(out: &mut T, new: &Regridded, patch: usize) -> Result<(), Stopped>
    requires { patch < length new.now.layout.patches }
    ensures whole { OnOk result (T.takes out.old out.new
        (patch_lines new.now.layout new.now.shares (lengths_in new.now.lengths) patch)) }
    ensures part { OnErr result (T.stops out.old out.new
        (patch_lines new.now.layout new.now.shares (lengths_in new.now.lengths) patch)) }
{
    let rim = new.rim(patch);
    for k in 0..rim.wide * rim.high {
        put_cell(out, &new.home(patch, k % rim.wide, k / rim.wide))?;
    }
    Ok(())
}

/// Puts the line of a face that lies there.
fn put_cell<T: Output>(out: &mut T, home: &Home) -> Result<(), Stopped>
    ensures whole { OnOk result (T.takes out.old out.new (cell_line home.now)) }
    ensures part { OnErr result (T.stops out.old out.new (cell_line home.now)) }
{
    put_front(out, home.dart)?;
    put_corners(out, &home.corners)?;
    out.put(b"\n")
}

/// Puts the front of that line.
fn put_front<T: Output>(out: &mut T, dart: u32) -> Result<(), Stopped>
    ensures whole { OnOk result (T.takes out.old out.new (cell_front dart)) }
    ensures part { OnErr result (T.stops out.old out.new (cell_front dart)) }
{
    out.put(cell_front(dart).as_str().as_bytes())
}

/// Puts the corners of that line.
fn put_corners<T: Output>(out: &mut T, corners: &[Seen; 4]) -> Result<(), Stopped>
    ensures whole { OnOk result (T.takes out.old out.new (flat_map seen_text corners.now)) }
    ensures part { OnErr result (T.stops out.old out.new (flat_map seen_text corners.now)) }
{
    for seen in corners {
        put_corner(out, *seen)?;
    }
    Ok(())
}

/// Puts a corner.
fn put_corner<T: Output>(out: &mut T, seen: Seen) -> Result<(), Stopped>
    ensures whole { OnOk result (T.takes out.old out.new (seen_text seen)) }
    ensures part { OnErr result (T.stops out.old out.new (seen_text seen)) }
{
    out.put(seen_text(seen).as_str().as_bytes())
}
