//! Least matchings of graphs, and the matching graphs of networks.

ghost use Rattle.std.specs.Prelude.{◌≡◌, ◌==◌, ◌&&◌, ◌^◌, nat_lt, not, unsigned_abs};
ghost use Rattle.std.specs.List.{list_all};

use crate::known::{read_task, task_text};
use def_flow::{MAX_TANGLE, Net};
use def_matching::{MAX_EDGES, MAX_VERTICES, WEdge, WGraph};
use qm_dual::SmallGraph;
use qm_gadget::{graph_of, matching_of};
use qm_match::{best, is_perfect};
use qm_net::{BoundedNet, admissible, are_lengths, is_within_bounds, tangle_of};
use qm_nettext::{NetFail, read_net};
use std::alloc::{AllocError, Global};

/// Whether the ends of each edge are two vertices, and no cost is large.
fn are_edges(n: u32, edges: &[WEdge]) -> bool
    ensures { result ≡ list_all (λ e. (nat_lt e.u n && (nat_lt e.v n && not (e.u == e.v)))
        && nat_lt (unsigned_abs e.cost) (2 ^ 32)) edges.now }
{
    edges.iter().all(|edge| {
        (edge.u < n && (edge.v < n && !(edge.u == edge.v)))
            && edge.cost.unsigned_abs() < 4_294_967_296
    })
}

/// What a least perfect matching of the graph of a text costs, and how many sets its dual has. It is found so often.
pub(crate) fn match_text(
    alloc: Global,
    text: &str,
    times: u32,
) -> Result<Option<String>, AllocError> {
    let Some(task) = read_task(alloc, text)? else {
        return Ok(None);
    };
    let g = task.graph;
    if g.n > MAX_VERTICES || g.edges.len() > MAX_EDGES as usize || !are_edges(g.n, &g.edges) {
        return Ok(None);
    }
    let small = SmallGraph { whole: &g };
    if !is_perfect(alloc, &small, &task.known)? {
        return Ok(None);
    }
    let mut told = String::new(alloc);
    for _ in 0..times {
        let (edges, dual) = best(alloc, &small, &task.known)?;
        told = format!(in alloc; "cost {} sets {}\n", cost_of(&g, &edges), dual.z.len())?;
    }
    Ok(Some(told))
}

/// The cost of a matching.
fn cost_of(g: &WGraph, edges: &[u32]) -> i64 {
    let mut cost = 0i64;
    for e in edges {
        let more = g.edges.get(*e as usize).map_or(0, |edge| edge.cost);
        cost = cost.saturating_add(more);
    }
    cost
}

/// The matching graph of the network of a text, with steps of 1 from a multiple of the old lengths, and the matching
/// of these lengths.
pub(crate) fn write_graph(alloc: Global, text: &str) -> Result<Option<String>, AllocError> {
    let net = match read_net(alloc, text) {
        Ok(net) => net,
        Err(NetFail::NoNetwork) => return Ok(None),
        Err(NetFail::Memory(refused)) => return Err(refused),
    };
    if !is_within_bounds(&net) {
        return Ok(None);
    }
    let bounded = BoundedNet { whole: &net };
    if tangle_of(alloc, &bounded)? > u128::from(MAX_TANGLE) {
        return Ok(None);
    }
    let x = multiple(alloc, &net)?;
    if !are_lengths(&net, &x) || !admissible(&net, &x) {
        return Ok(None);
    }
    let gadget = graph_of(alloc, &bounded, &x, 1)?;
    let known = matching_of(alloc, &bounded, &gadget, &x)?;
    Ok(Some(task_text(alloc, &gadget.graph, &known)?))
}

/// The old lengths, as often as the scale and the floors ask.
pub(crate) fn multiple(alloc: Global, net: &Net) -> Result<Vec<u64>, AllocError> {
    let mut times = net.p / net.q.max(1);
    for arc in &net.arcs {
        times = times.max(arc.floor);
    }
    let mut x = Vec::new(alloc);
    for arc in &net.arcs {
        x.push(u64::from(arc.old).saturating_mul(u64::from(times)))?;
    }
    Ok(x)
}
