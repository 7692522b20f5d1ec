//! What the first dual of a round leaves to be searched.

ghost use Rattle.std.specs.Prelude.{◌≡◌, length};
ghost use Rattle.def_matching.specs.Matching.{graph};

use def_matching::WGraph;
use qm_dual::SmallGraph;
use qm_fraction::{Fraction, least_fraction};
use qm_gadget::{graph_of, matching_of};
use qm_initial::initial_dual;
use qm_net::{BoundedNet, deviation};
use qm_solve::{Descent, first_wishes};
use std::alloc::{AllocError, Global};

/// How many searches the matching of the next round needs, once its first dual is led to that of a least fractional
/// matching, where it is: each matches two vertices that no tight edge matched.
pub(crate) fn searches_left(alloc: Global, descent: &Descent) -> Result<u64, AllocError> {
    let net = BoundedNet {
        whole: descent.net.whole,
    };
    let gadget = graph_of(alloc, &net, &descent.x, descent.step)?;
    let known = matching_of(alloc, &net, &gadget, &descent.x)?;
    let wish = first_wishes(alloc, net.whole, &gadget, &descent.prices)?;
    let graph = SmallGraph {
        whole: &gadget.graph,
    };
    let y = initial_dual(alloc, &graph, &wish)?;
    let Fraction { numbers, edges } = match least_fraction(alloc, &graph, &y, &known)? {
        Some(fraction) => fraction,
        None => Fraction {
            numbers: y,
            edges: Vec::new(alloc),
        },
    };
    let mut matched = vec![in alloc; false; numbers.len()]?;
    for e in &edges {
        match_tight(&gadget.graph, &numbers, &mut matched, *e);
    }
    for e in &known {
        match_tight(&gadget.graph, &numbers, &mut matched, *e);
    }
    for e in 0..gadget.graph.edges.len() as u32 {
        match_tight(&gadget.graph, &numbers, &mut matched, e);
    }
    let left = matched.iter().filter(|matched| !**matched).count();
    Ok(left as u64 / 2)
}

/// How far the list of a descent is from what is wanted.
pub(crate) fn deviation_of(descent: &Descent) -> i128 {
    deviation(descent.net.whole, &descent.x)
}

/// Matches an edge that is tight and whose ends are not matched.
fn match_tight(g: &WGraph, y: &[i64], matched: &mut [bool], e: u32)
    ensures { length matched.new ≡ length matched.old }
{
    let Some(edge) = g.edges.get(e as usize) else {
        return;
    };
    let (u, v) = (edge.u as usize, edge.v as usize);
    let (Some(at_u), Some(at_v)) = (y.get(u), y.get(v)) else {
        return;
    };
    let is_free = matched.get(u) == Some(&false) && matched.get(v) == Some(&false);
    let is_tight = i128::from(*at_u) + i128::from(*at_v) == 2 * i128::from(edge.cost);
    if is_free && is_tight && u < matched.len() && v < matched.len() {
        matched[u] = true;
        matched[v] = true;
    }
}
