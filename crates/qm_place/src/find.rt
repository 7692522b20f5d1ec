//! Which point a number names, and where that lies.

ghost use Rattle.std.specs.Prelude.{◌≡◌, ◌<◌, ◌+◌, length};
ghost use Rattle.def_layout.specs.Layouts.{gluing_of, layout_of};
ghost use Rattle.def_map.specs.Spots.{spot_at};
ghost use Rattle.def_written.specs.Numbers.{before_arc, vertices};
ghost use Rattle.def_remesh.specs.NewPoints.{lengths_in};
ghost use Rattle.def_remesh.specs.Placings.{shares_in};
ghost use Rattle.qm_place.specs.Lengthened.{lengths_by, layout_in};

use crate::placed::Placed;
use crate::spots::{along_spot, inside_spot};
use def_map::Spot;
use qm_offsets::spot_near;

/// The arc and the patch where a vertex was found: the next one is looked for there first.
#[derive(Clone, Copy, Debug, PartialEq, Eq)]
pub struct Near {
    arc: usize,
    patch: usize,
}

impl Near {
    /// Before the first vertex.
    pub fn new() -> Near {
        Near { arc: 0, patch: 0 }
    }
}

impl Placed<'_> {
    /// Where the new vertex v lies in the old mesh. In constant time where it is near the last one, else logarithmic.
    #[tactic(auto, using(crate::proofs::Casts::found_at, std::proofs::lemmas::List::get_or_read))]
    pub fn spot_near(&self, v: u32, near: &mut Near) -> Spot
        requires vertex { v < vertices (gluing_of (layout_of self.now.t.now))
            (lengths_in self.now.tables.now.lengths.items) }
        ensures { result ≡ spot_at (layout_of self.now.t.now) (shares_in self.now.tables.now.spaced)
            (lengths_in self.now.tables.now.lengths.items) v }
    {
        let nodes = self.t.nodes.len() as u32;
        if v < nodes {
            return Spot::AtVertex(self.t.nodes[v as usize]);
        }
        let arcs_end = arcs_end(self);
        if v < arcs_end {
            near.arc = spot_near(&self.tables.along.begin, v - nodes, near.arc);
            return Spot::OnEdge(along_spot(self, near.arc, v - nodes));
        }
        near.patch = spot_near(&self.tables.inside.begin, v - arcs_end, near.patch);
        Spot::InFace(inside_spot(self, near.patch, v - arcs_end))
    }
}

/// How many vertices are nodes or lie on arcs.
#[tactic(auto, using(crate::proofs::Entries::end_read))]
fn arcs_end(placed: &Placed) -> u32
    ensures { result ≡ length placed.now.t.now.nodes.items
        + before_arc (lengths_by placed.now) (length (layout_in placed.now).arcs) }
{
    let along = &placed.tables.along.begin;
    placed.t.nodes.len() as u32 + along[along.len() - 1]
}
