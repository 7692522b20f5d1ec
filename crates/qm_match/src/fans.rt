//! The edges at each vertex, as chains of darts.

ghost use Rattle.std.specs.Prelude.{◌^◌, ◌<◌, ◌≤◌, length, IfOk};
ghost use Rattle.qm_match.specs.Fans.{AreFans, HasPut};

use crate::Memory;
use qm_dual::SmallGraph;
use std::alloc::Global;

/// The darts that begin at each vertex, each chain from the latest to the first. An entry is one more than a dart's
/// number, or 0 where the chain ends.
#[derive(Drop)]
pub(crate) struct Fans {
    pub(crate) first: Vec<u32>,
    pub(crate) next: Vec<u32>,
}

/// The fans of a graph.
pub(crate) fn fans_of(alloc: Global, g: &SmallGraph) -> Result<Fans, Memory>
    ensures { IfOk result (λ fans. AreFans g.now.graph fans.first.items fans.next.items) }
{
    let mut fans = Fans {
        first: vec![in alloc; 0u32; g.n() as usize]?,
        next: vec![in alloc; 0u32; 2 * g.edge_count() as usize]?,
    };
    for e in 0..g.edge_count() {
        let edge = g.edge(e);
        put(&mut fans, edge.u, 2 * e);
        put(&mut fans, edge.v, 2 * e + 1);
    }
    Ok(fans)
}

/// Puts a dart at the front of the chain of a vertex.
fn put(fans: &mut Fans, v: u32, d: u32)
    requires vertex { v < length fans.old.first.items }
    requires dart { d < length fans.old.next.items }
    requires few { length fans.old.next.items ≤ 2 ^ 31 }
    ensures { HasPut fans.old fans.new v d }
{
    fans.next[d as usize] = fans.first[v as usize];
    fans.first[v as usize] = d + 1;
}
