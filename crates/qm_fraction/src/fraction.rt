//! The least fractional matching of a graph, from a feasible dual on.

ghost use Rattle.std.specs.Prelude.{◌≡◌, length, IfOk, IfSome};

use crate::Memory;
use crate::exits::exits_of;
use crate::search::{search_in, vertices_after};
use crate::vertices::vertices_of;
use qm_dual::SmallGraph;
use std::alloc::Global;

/// Where no more vertices are free, and no more than one of so many, a search from each of them costs less than to lead
/// the numbers first.
const FEW: usize = 256;

const SHARE: usize = 64;

/// A number for each vertex, and edges of which no two meet.
#[derive(Debug, Drop)]
pub struct Fraction {
    pub numbers: Vec<i64>,
    pub edges: Vec<u32>,
}

/// The numbers and the edges of a least fractional perfect matching, where each odd cycle leaves a vertex free; or
/// nothing, where tight edges match all vertices but a few, those of a known matching first. It begins at a
/// feasible dual, two numbers at an edge for twice its cost, and where the fuel ends early it gives what there is then.
///
/// Who begins with the numbers has to test them, and so has who matches the edges.
pub fn least_fraction(
    alloc: Global,
    g: &SmallGraph,
    y: &[i64],
    known: &[u32],
) -> Result<Option<Fraction>, Memory>
    requires long { length y.now ≡ g.now.graph.n }
    ensures { IfOk result (λ found. IfSome found (λ fraction. length fraction.numbers.items ≡ g.now.graph.n)) }
{
    let mut vertices = vertices_of(alloc, g, y)?;
    vertices.pair_tight(known);
    if g.n() == 0 || vertices.free_count() <= FEW.min(g.n() as usize / SHARE) {
        return Ok(None);
    }
    let exits = exits_of(alloc, g)?;
    let mut search = search_in(alloc, vertices, exits);
    search.match_all()?;
    let vertices = vertices_after(search);
    Ok(Some(Fraction {
        numbers: vertices.numbers(alloc)?,
        edges: vertices.edges(alloc)?,
    }))
}
