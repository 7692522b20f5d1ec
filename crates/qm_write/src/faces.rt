//! The lines of the faces of a new mesh.

ghost use Rattle.std.specs.Prelude.{OnOk, OnErr};
ghost use Rattle.std.specs.List.{flat_map};
ghost use Rattle.def_layout.specs.Layouts.{gluing_of};
ghost use Rattle.def_remesh.specs.NewPoints.{lengths_in};
ghost use Rattle.def_text.specs.Canonical.{face_text};
ghost use Rattle.def_written.specs.NewFaces.{new_faces};

use def_output::Stopped;
use qm_obj::put_face;
use qm_output::Output;
use qm_stages::Regridded;

/// Puts a line for each face.
pub(crate) fn put_faces<T: Output>(out: &mut T, new: &Regridded) -> Result<(), Stopped>
    ensures whole { OnOk result (T.takes out.old out.new (flat_map face_text
        (new_faces (gluing_of new.now.layout) (lengths_in new.now.lengths)))) }
    ensures part { OnErr result (T.stops out.old out.new (flat_map face_text
        (new_faces (gluing_of new.now.layout) (lengths_in new.now.lengths)))) }
{
    for f in 0..new.faces() {
        put_face(out, &new.face(f))?;
    }
    Ok(())
}
