//! The text of a refined mesh.

ghost use Rattle.std.specs.Prelude.{◌≡◌, None, OnOk, OnErr};
ghost use Rattle.def_layout.specs.Arcs.{long_at};
ghost use Rattle.def_remesh.specs.NewPoints.{lengths_in, multiple_of};
ghost use Rattle.def_remesh.specs.Refined.{refine_head, refined_text};

use def_output::Stopped;
use qm_output::Output;
use qm_print::numbered_line;
use qm_stages::Regridded;
use qm_write::put_new_mesh;

/// Puts the head line and the text of the mesh with `by` times the old lengths. Its cost is that of `put_new_mesh`.
pub fn put_refined<T: Output>(out: &mut T, by: u32, new: &Regridded) -> Result<(), Stopped>
    requires lengths { lengths_in new.now.lengths ≡ multiple_of by (long_at new.now.layout.arcs) }
    requires even { new.now.shares ≡ None }
    ensures whole { OnOk result (T.takes out.old out.new (refined_text by new.now.soup new.now.layout)) }
    ensures part { OnErr result (T.stops out.old out.new (refined_text by new.now.soup new.now.layout)) }
{
    put_head(out, by)?;
    put_new_mesh(out, new)
}

/// Puts the head line.
fn put_head<T: Output>(out: &mut T, by: u32) -> Result<(), Stopped>
    ensures whole { OnOk result (T.takes out.old out.new (refine_head by)) }
    ensures part { OnErr result (T.stops out.old out.new (refine_head by)) }
{
    let line = numbered_line("#quadq 1 refine by ", u64::from(by), "\n");
    out.put(line.as_str().as_bytes())
}
