//! The vertices at the rim, and the ladder that joins them.

ghost use Rattle.std.specs.Prelude.{◌≡◌, ◌+◌, ◌*◌, ◌^◌, ◌<◌, ◌++◌, length, OnOk, IfOk};
ghost use Rattle.def_math.specs.Counts.{count};
ghost use Rattle.def_flow.specs.MatchingGraph.{link_from, rim, rim_links, rung, unit_size};

use crate::edges::{push_link, size_of_unit};
use def_flow::ArcUnit;
use def_matching::WEdge;
use std::alloc::{AllocError, Global};

/// The vertices at the rim, one for each unit with one end, where the vertices of the units begin at `first`.
pub(crate) fn rim_of(alloc: Global, first: u32, units: &[ArcUnit]) -> Result<Vec<u32>, AllocError>
    requires { first + count unit_size units.now < 2 ^ 26 }
    ensures { IfOk result (λ rims. rims.items ≡ rim first units.now) }
{
    let mut rims = Vec::new(alloc);
    let mut b = first;
    for unit in units {
        if unit.right.is_none() {
            rims.push(b + 1)?;
        }
        b += size_of_unit(unit);
    }
    Ok(rims)
}

/// Adds the edges that join the vertices at the rim.
pub(crate) fn push_rim(
    edges: &mut Vec<WEdge>,
    lone: Option<u32>,
    first: u32,
    rims: &[u32],
) -> Result<(), AllocError>
    requires { first + 2 * length rims.now < 2 ^ 26 }
    ensures { OnOk result (edges.new.items ≡ edges.old.items ++ rim_links lone first rims.now) }
{
    let mut before = lone;
    let mut fresh = first;
    let mut rest = rims;
    while let [here, after @ ..] = rest {
        if after.is_empty() {
            return push_from(edges, before, *here);
        }
        push_rung(edges, before, fresh, *here)?;
        before = Some(fresh + 1);
        fresh += 2;
        rest = after;
    }
    Ok(())
}

/// Adds the edge from a vertex that may be missing.
fn push_from(edges: &mut Vec<WEdge>, before: Option<u32>, v: u32) -> Result<(), AllocError>
    ensures { OnOk result (edges.new.items ≡ edges.old.items ++ link_from before v) }
{
    match before {
        None => Ok(()),
        Some(b) => push_link(edges, b, v, 0),
    }
}

/// Adds the rung of the vertex `here` at the rim, with two fresh vertices.
#[tactic(auto, using(crate::proofs::Fans::rung_parts))]
fn push_rung(
    edges: &mut Vec<WEdge>,
    before: Option<u32>,
    fresh: u32,
    here: u32,
) -> Result<(), AllocError>
    requires { fresh < 2 ^ 26 }
    ensures { OnOk result (edges.new.items ≡ edges.old.items ++ rung before fresh here) }
{
    push_from(edges, before, here)?;
    push_link(edges, here, fresh, 0)?;
    push_from(edges, before, fresh)?;
    push_link(edges, fresh, fresh + 1, 0)
}
