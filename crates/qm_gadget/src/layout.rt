//! The layout of a matching graph.

ghost use Rattle.std.specs.Prelude.{◌≡◌, ◌+◌, ◌*◌, ◌-◌, ◌^◌, ◌<◌, ◌++◌, length, cond, OnOk, IfOk};
ghost use Rattle.def_math.specs.Counts.{count, count_below};
ghost use Rattle.def_matching.specs.Matching.{graph};
ghost use Rattle.def_flow.specs.MatchingGraph.{units_links, unit_size, graph_by, first_fresh, rim};
ghost use Rattle.std.proofs.Props.{props};
ghost use Rattle.qm_gadget.specs.Layout.{copies_in, AreAtNodes, EndsBelow-prop};

use crate::copies::{Copies, all_copies};
use crate::edges::{Placed, push_unit, size_of_unit};
use crate::rim::{push_rim, rim_of};
use def_flow::ArcUnit;
use def_matching::{WEdge, WGraph};
use std::alloc::{AllocError, Global};

/// Units with their ends at nodes that have copies.
#[derive(Clone, Copy)]
pub(crate) struct Covered<'c, 'u> {
    pub copies: &'c Copies,
    pub units: &'u [ArcUnit],
    ghost at: { AreAtNodes (length copies.now.counts.items) units.now } by { Prim.hlevel (EndsBelow-prop, props) },
}

/// The graph of units over nodes with copies. Linear in its vertices and edges.
pub(crate) fn lay_out(alloc: Global, covered: &Covered, lone: bool) -> Result<WGraph, AllocError>
    requires { let counts = covered.now.copies.now.counts.items in
        first_fresh (length counts) (copies_in counts) lone covered.now.units.now
        + 2 * length (rim (count_below (copies_in counts) (length counts)) covered.now.units.now)
        < 2 ^ 26 }
    ensures { IfOk result (λ g.
        graph g
        ≡ graph_by (length covered.now.copies.now.counts.items) (copies_in covered.now.copies.now.counts.items) lone
        covered.now.units.now) }
{
    let first = all_copies(covered.copies);
    let mut edges = Vec::new(alloc);
    let past = push_units(&mut edges, covered, first)?;
    let rims = rim_of(alloc, first, covered.units)?;
    let fresh = past + u32::from(lone);
    push_rim(&mut edges, lone_vertex(lone, past), fresh, &rims)?;
    let pairs = rims.len().saturating_sub(1) as u32;
    Ok(WGraph {
        n: fresh + 2 * pairs,
        edges,
    })
}

/// The lone vertex, if there is one.
fn lone_vertex(lone: bool, past: u32) -> Option<u32>
    ensures { result ≡ cond lone (Some past) None }
{
    if lone { Some(past) } else { None }
}

/// Adds the edges of all units, whose vertices begin at `first`, and gives the vertex past the last of them.
fn push_units(edges: &mut Vec<WEdge>, covered: &Covered, first: u32) -> Result<u32, AllocError>
    requires { first + count unit_size covered.now.units.now < 2 ^ 26 }
    ensures edges { OnOk result
        (edges.new.items
        ≡ edges.old.items
        ++ units_links (copies_in covered.now.copies.now.counts.items) first covered.now.units.now) }
    ensures past { IfOk result (λ past. past ≡ first + count unit_size covered.now.units.now) }
{
    let mut b = first;
    for unit in covered.units {
        let placed = Placed {
            copies: covered.copies,
            unit,
            b,
        };
        push_unit(edges, &placed)?;
        b += size_of_unit(unit);
    }
    Ok(b)
}
