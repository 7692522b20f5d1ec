//! The edges of units.

ghost use Rattle.std.specs.Prelude.{◌≡◌, ◌+◌, ◌^◌, ◌<◌, ◌≤◌, [], ◌∷◌, ◌++◌, pos, length, OnOk};
ghost use Rattle.def_flow.specs.MatchingGraph.{link, fan, to_copies, inner_link, links_by, unit_links, are_alike};
ghost use Rattle.def_flow.specs.MatchingGraph.{unit_size};
ghost use Rattle.std.proofs.Props.{props};
ghost use Rattle.qm_gadget.specs.Layout.{copies_in, EndsBelow-prop, IsAtNodes};

use crate::copies::Copies;
use def_flow::{ArcUnit, End};
use def_matching::WEdge;
use std::alloc::AllocError;

/// A unit with its ends at nodes that have copies, and the first of its own vertices.
#[derive(Clone, Copy)]
pub(crate) struct Placed<'c, 'u> {
    pub copies: &'c Copies,
    pub unit: &'u ArcUnit,
    pub b: u32,
    ghost at: { IsAtNodes (length copies.now.counts.items) unit.now } by { Prim.hlevel (EndsBelow-prop, props) },
    ghost small: { b < 2 ^ 26 },
}

/// Adds an edge.
pub(crate) fn push_link(edges: &mut Vec<WEdge>, u: u32, v: u32, cost: i64) -> Result<(), AllocError>
    ensures { OnOk result (edges.new.items ≡ edges.old.items ++ link u v cost ∷ []) }
{
    edges.push(WEdge { u, v, cost })?;
    Ok(())
}

/// Adds edges from `u` to so many vertices, from the first on.
#[tactic(auto, using(crate::proofs::Fans::fan_more, crate::proofs::Fans::two_parts))]
fn push_fan(
    edges: &mut Vec<WEdge>,
    u: u32,
    cost: i64,
    first: u32,
    many: u32,
) -> Result<(), AllocError>
    requires { first + many ≤ 2 ^ 26 }
    ensures { OnOk result (edges.new.items ≡ edges.old.items ++ fan u cost first many) }
{
    for k in 0..many {
        push_link(edges, u, first + k, cost)?;
    }
    Ok(())
}

/// Adds edges from `u` to each copy of the node of an end. A plus end is paid for here.
fn push_to_copies(
    edges: &mut Vec<WEdge>,
    copies: &Copies,
    u: u32,
    cost: i64,
    end: &End,
) -> Result<(), AllocError>
    requires at { end.now.node < length copies.now.counts.items }
    ensures { OnOk result
        (edges.new.items ≡ edges.old.items ++ to_copies (copies_in copies.now.counts.items) u cost end.now) }
{
    let node = end.node as usize;
    let paid = if end.plus { cost } else { 0 };
    push_fan(edges, u, paid, copies.firsts[node], copies.counts[node])
}

/// Adds the edge inside a unit. A minus end is paid for here.
fn push_inner(edges: &mut Vec<WEdge>, placed: &Placed) -> Result<(), AllocError>
    ensures { OnOk result
        (edges.new.items
        ≡ edges.old.items ++ inner_link placed.now.b placed.now.unit.now.cost placed.now.unit.now.left ∷ []) }
{
    let unit = placed.unit;
    let paid = if unit.left.plus { 0 } else { unit.cost };
    push_link(edges, placed.b, placed.b + 1, paid)
}

/// Adds the edges of a unit with one end.
#[tactic(auto, using(crate::proofs::Fans::two_parts))]
fn push_lone(edges: &mut Vec<WEdge>, placed: &Placed) -> Result<(), AllocError>
    ensures { OnOk result
        (edges.new.items
        ≡ edges.old.items
        ++ links_by (copies_in placed.now.copies.now.counts.items) placed.now.b placed.now.unit.now.cost
        placed.now.unit.now.left None) }
{
    let unit = placed.unit;
    push_to_copies(edges, placed.copies, placed.b, unit.cost, &unit.left)?;
    push_inner(edges, placed)
}

/// Adds the edges of a unit whose two ends have like signs.
#[tactic(auto, using(crate::proofs::Fans::three_parts))]
fn push_alike(edges: &mut Vec<WEdge>, placed: &Placed, right: &End) -> Result<(), AllocError>
    requires { right.now.node < length placed.now.copies.now.counts.items }
    ensures { OnOk result
        (edges.new.items
        ≡ edges.old.items
        ++ (to_copies (copies_in placed.now.copies.now.counts.items) placed.now.b placed.now.unit.now.cost
        placed.now.unit.now.left
        ++ (to_copies (copies_in placed.now.copies.now.counts.items) (placed.now.b + 1) (pos 0) right.now
        ++ inner_link placed.now.b placed.now.unit.now.cost placed.now.unit.now.left ∷ []))) }
{
    let unit = placed.unit;
    push_to_copies(edges, placed.copies, placed.b, unit.cost, &unit.left)?;
    push_to_copies(edges, placed.copies, placed.b + 1, 0, right)?;
    push_inner(edges, placed)
}

/// Adds the edges of a unit whose two ends have unlike signs.
#[tactic(auto, using(crate::proofs::Fans::two_parts))]
fn push_unlike(edges: &mut Vec<WEdge>, placed: &Placed, right: &End) -> Result<(), AllocError>
    requires { right.now.node < length placed.now.copies.now.counts.items }
    ensures { OnOk result
        (edges.new.items
        ≡ edges.old.items
        ++ (to_copies (copies_in placed.now.copies.now.counts.items) placed.now.b placed.now.unit.now.cost
        placed.now.unit.now.left
        ++ to_copies (copies_in placed.now.copies.now.counts.items) placed.now.b placed.now.unit.now.cost
        right.now)) }
{
    let unit = placed.unit;
    push_to_copies(edges, placed.copies, placed.b, unit.cost, &unit.left)?;
    push_to_copies(edges, placed.copies, placed.b, unit.cost, right)
}

/// Whether two ends have like signs.
pub(crate) fn have_like_signs(left: &End, right: &End) -> bool
    ensures { result ≡ are_alike left.now right.now }
{
    left.plus == right.plus
}

/// Adds the edges of a unit.
pub(crate) fn push_unit(edges: &mut Vec<WEdge>, placed: &Placed) -> Result<(), AllocError>
    ensures { OnOk result
        (edges.new.items
        ≡ edges.old.items
        ++ unit_links (copies_in placed.now.copies.now.counts.items) placed.now.b placed.now.unit.now) }
{
    let unit = placed.unit;
    match &unit.right {
        None => push_lone(edges, placed),
        Some(right) => {
            if have_like_signs(&unit.left, right) {
                push_alike(edges, placed, right)
            } else {
                push_unlike(edges, placed, right)
            }
        }
    }
}

/// How many vertices a unit has of its own.
pub(crate) fn size_of_unit(unit: &ArcUnit) -> u32
    ensures value { result ≡ unit_size unit.now }
    ensures small { (1 ≤ result) × (result ≤ 2) }
{
    match &unit.right {
        None => 2,
        Some(right) => {
            if have_like_signs(&unit.left, right) {
                2
            } else {
                1
            }
        }
    }
}
