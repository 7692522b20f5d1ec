//! The lines of the vertices of a new mesh.

ghost use Rattle.std.specs.Prelude.{OnOk, OnErr};
ghost use Rattle.std.specs.List.{flat_map};
ghost use Rattle.def_remesh.specs.NewPoints.{lengths_in};
ghost use Rattle.def_remesh.specs.NewSoup.{new_places};
ghost use Rattle.def_text.specs.Canonical.{position_text};

use def_output::Stopped;
use qm_obj::put_position;
use qm_output::Output;
use qm_place::Near;
use qm_stages::Regridded;

/// Puts a line for each vertex.
pub(crate) fn put_vertices<T: Output>(out: &mut T, new: &Regridded) -> Result<(), Stopped>
    ensures whole { OnOk result (T.takes out.old out.new (flat_map position_text
        (new_places new.now.soup.faces new.now.layout new.now.soup.pos new.now.shares (lengths_in new.now.lengths)))) }
    ensures part { OnErr result (T.stops out.old out.new (flat_map position_text
        (new_places new.now.soup.faces new.now.layout new.now.soup.pos new.now.shares (lengths_in new.now.lengths)))) }
{
    let mut near = Near::new();
    for v in 0..new.vertices() {
        let place = new.place_near(v, &mut near);
        put_position(out, &place)?;
    }
    Ok(())
}
