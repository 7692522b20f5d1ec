//! The lines of the new vertices.

ghost use Rattle.std.specs.Prelude.{OnOk, OnErr};
ghost use Rattle.def_map.specs.Laws.{IsSpot};
ghost use Rattle.def_map.specs.MapText.{spot_line, vertex_lines};
ghost use Rattle.def_remesh.specs.NewPoints.{lengths_in};

use crate::lines::spot_line;
use def_map::Spot;
use def_output::Stopped;
use qm_output::Output;
use qm_place::Near;
use qm_stages::{CutMesh, Regridded};

/// Puts a line for each vertex.
pub(crate) fn put_vertices<T: Output>(out: &mut T, new: &Regridded) -> Result<(), Stopped>
    ensures whole { OnOk result (T.takes out.old out.new
        (vertex_lines new.now.soup.faces new.now.soup.names new.now.layout new.now.shares
        (lengths_in new.now.lengths))) }
    ensures part { OnErr result (T.stops out.old out.new
        (vertex_lines new.now.soup.faces new.now.soup.names new.now.layout new.now.shares
        (lengths_in new.now.lengths))) }
{
    let mut near = Near::new();
    for v in 0..new.vertices() {
        let spot = new.spot_near(v, &mut near);
        put_spot(out, new.cut(), spot)?;
    }
    Ok(())
}

/// Puts the line of a vertex that lies there.
fn put_spot<T: Output>(out: &mut T, cut: &CutMesh, spot: Spot) -> Result<(), Stopped>
    requires { IsSpot cut.now.soup.faces spot }
    ensures whole { OnOk result (T.takes out.old out.new
        (spot_line cut.now.soup.faces cut.now.soup.names spot)) }
    ensures part { OnErr result (T.stops out.old out.new
        (spot_line cut.now.soup.faces cut.now.soup.names spot)) }
{
    out.put(spot_line(cut, spot).as_str().as_bytes())
}
