//! Darts of a graph: an edge with a direction, told by its last bit.

ghost use Rattle.std.specs.Prelude.{◌≡◌, ◌*◌, ◌<◌, length};
ghost use Rattle.def_forest.specs.Darts.{darts_of, other_dart};

use qm_dual::SmallGraph;

/// The other dart of the same edge.
pub fn twin(d: u32) -> u32
    ensures { result ≡ other_dart d }
{
    if d % 2 == 0 { d + 1 } else { d - 1 }
}

/// Where a dart begins.
pub fn near(g: &SmallGraph, d: u32) -> u32
    requires { d < 2 * length g.now.graph.edges }
    ensures { result ≡ (darts_of g.now.graph).near d }
{
    let edge = g.edge(d / 2);
    if d % 2 == 0 { edge.u } else { edge.v }
}
