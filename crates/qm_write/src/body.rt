//! The lines of a new mesh.

ghost use Rattle.std.specs.Prelude.{OnOk, OnErr};
ghost use Rattle.def_remesh.specs.NewPoints.{lengths_in};
ghost use Rattle.def_remesh.specs.NewSoup.{spaced_soup};
ghost use Rattle.def_text.specs.Canonical.{canonical_text};

use crate::faces::put_faces;
use crate::vertices::put_vertices;
use def_output::Stopped;
use qm_output::Output;
use qm_stages::Regridded;

/// Puts the canonical text of the new mesh: a line for each vertex, then one for each face. Linear but for the searches
/// of faces' corners on borders, which are logarithmic; without memory.
pub fn put_new_mesh<T: Output>(out: &mut T, new: &Regridded) -> Result<(), Stopped>
    ensures whole { OnOk result (T.takes out.old out.new
        (canonical_text (spaced_soup new.now.soup new.now.layout new.now.shares (lengths_in new.now.lengths)))) }
    ensures part { OnErr result (T.stops out.old out.new
        (canonical_text (spaced_soup new.now.soup new.now.layout new.now.shares (lengths_in new.now.lengths)))) }
{
    put_vertices(out, new)?;
    put_faces(out, new)
}
