//! The list that a matching tells.

ghost use Rattle.std.specs.Prelude.{◌≡◌, ◌+◌, ◌*◌, ◌^◌, ◌<◌, ◌≤◌, ◌≤ℤ◌, ◌-ℤ◌, ◌++◌, [], ◌∷◌, ℕ, pos, drop, length};
ghost use Rattle.std.specs.Prelude.{slice_index, IfOk, OnOk};
ghost use Rattle.std.specs.Bool.{beq};
ghost use Rattle.def_math.specs.Counts.{count};
ghost use Rattle.def_flow.specs.Network.{network};
ghost use Rattle.def_flow.specs.Admissible.{deviation, entries, IsAdmissible};
ghost use Rattle.def_math.specs.Increasing.{IsIncreasing};
ghost use Rattle.def_flow.specs.Gadget.{IsGadgetOf, IsInBox};
ghost use Rattle.def_matching.specs.Matching.{graph, matching_cost, IsPerfect};
ghost use Rattle.gadget_laws.specs.Marks.{trues};
ghost use Rattle.gadget_laws.specs.Told.{marks_from, states_told};
ghost use Rattle.std.proofs.Props.{props};
ghost use Rattle.qm_gadget.specs.Layout.{copies_in, AreAtNodes, EndsBelow-prop};
ghost use Rattle.qm_gadget.specs.Read.{first_below, skip_below, width_of_unit, lengths_by, lengths_read, widths_over};

use crate::Memory;
use crate::boxes::Boxes;
use crate::marks::{Counted, width_of};
use crate::plan::plan_of;
use def_flow::{ArcUnit, Gadget};
use qm_net::BoundedNet;
use std::alloc::{AllocError, Global};

/// The admissible list of lengths that a perfect matching of a gadget's graph tells. Its deviation less that of the
/// lows is at most the cost of the matching. Linear in the arcs, nodes, units and edges of the matching.
pub fn lengths_of(
    alloc: Global,
    net: &BoundedNet,
    g: &Gadget,
    m: &[u32],
) -> Result<Vec<u64>, Memory>
    requires gadget { IsGadgetOf (network net.now.whole.now) g.now }
    requires perfect { IsPerfect (graph g.now.graph) m.now }
    ensures count { IfOk result (λ ys. length ys.items ≡ length net.now.whole.now.arcs.items) }
    ensures admissible { IfOk result (λ ys. IsAdmissible (network net.now.whole.now) (entries ys.items)) }
    ensures inside { IfOk result (λ ys. IsInBox g.now.step g.now.low.items g.now.cap.items ys.items) }
    ensures cost { IfOk result (λ ys.
        (pos (deviation (network net.now.whole.now) (entries ys.items))
        -ℤ pos (deviation (network net.now.whole.now) (entries g.now.low.items)))
        ≤ℤ matching_cost (graph g.now.graph) m.now) }
{
    let boxes = Boxes {
        net: *net,
        lows: &g.low,
        caps: &g.cap,
        step: g.step,
    };
    lengths_over(alloc, &boxes, m, g.graph.edges.len() as u32)
}

/// Units with their ends at nodes, of which each has few copies.
#[derive(Clone, Copy)]
struct Spread<'c, 'u> {
    counts: &'c [u32],
    units: &'u [ArcUnit],
    ghost at: { AreAtNodes (length counts.now) units.now } by { Prim.hlevel (EndsBelow-prop, props) },
    ghost few: { (v : ℕ) → slice_index counts.now v ≤ 2 ^ 27 },
}

/// The same, by the lows and caps of the gadget and the number of its edges.
fn lengths_over(alloc: Global, boxes: &Boxes, m: &[u32], edges: u32) -> Result<Vec<u64>, AllocError>
    requires edges { (edges ≤ 2 ^ 26)
        × (widths_over (network boxes.now.net.whole.now) boxes.now.step boxes.now.lows.now boxes.now.caps.now ≤ edges) }
    requires increasing { IsIncreasing 0 edges m.now }
    ensures { IfOk result (λ ys.
        ys.items
        ≡ lengths_read (network boxes.now.net.whole.now) boxes.now.step boxes.now.lows.now boxes.now.caps.now
        edges m.now) }
{
    let plan = plan_of(alloc, boxes)?;
    let spread = Spread {
        counts: &plan.counts,
        units: &plan.units,
    };
    let ons = states_in(alloc, &spread, m, edges)?;
    raise(alloc, boxes, &ons)
}

/// The states of the units that a matching among so many edges tells.
fn states_in(alloc: Global, spread: &Spread, m: &[u32], edges: u32) -> Result<Vec<bool>, AllocError>
    requires few { edges ≤ 2 ^ 26 }
    requires increasing { IsIncreasing 0 edges m.now }
    requires wide { count (width_of_unit (copies_in spread.now.counts.now)) spread.now.units.now ≤ edges }
    ensures { IfOk result (λ ons.
        ons.items
        ≡ states_told (copies_in spread.now.counts.now) spread.now.units.now (marks_from 0 edges m.now)) }
{
    let mut ons = Vec::new(alloc);
    let mut k = 0;
    let mut at = 0;
    for unit in spread.units {
        let counted = Counted {
            counts: spread.counts,
            unit,
        };
        push_on(&mut ons, is_on(&counted, m, at, k))?;
        k += width_of(&counted);
        at = past_below(m, at, k);
    }
    Ok(ons)
}

fn push_on(ons: &mut Vec<bool>, on: bool) -> Result<(), AllocError>
    ensures { OnOk result (ons.new.items ≡ ons.old.items ++ on ∷ []) }
{
    ons.push(on)?;
    Ok(())
}

/// Whether a unit is on, whose first edge is `k`, where the matching from place `at` on has no earlier edge.
fn is_on(counted: &Counted, m: &[u32], at: usize, k: u32) -> bool
    requires { k ≤ 2 ^ 26 }
    ensures { result
        ≡ (beq counted.now.unit.now.left.plus
        (first_below (drop at m.now) (k + slice_index counted.now.counts.now counted.now.unit.now.left.node))) }
{
    let left = &counted.unit.left;
    let end = k + counted.counts[left.node as usize];
    let chosen = at < m.len() && m[at] < end;
    left.plus == chosen
}

/// The first place from `at` on at which an edge is not below `end`.
fn past_below(m: &[u32], at: usize, end: u32) -> usize
    requires { at ≤ length m.now }
    ensures rest { drop result m.now ≡ skip_below end (drop at m.now) }
    ensures low { result ≤ length m.now }
{
    let mut place = at;
    while place < m.len() && m[place] < end {
        place += 1;
    }
    place
}

/// The lengths where of each arc as many units are on as the states say.
fn raise(alloc: Global, boxes: &Boxes, ons: &[bool]) -> Result<Vec<u64>, AllocError>
    ensures { IfOk result (λ ys. ys.items ≡ lengths_by boxes.now.step boxes.now.lows.now boxes.now.caps.now ons.now) }
{
    let mut ys = Vec::new(alloc);
    let mut rest = ons;
    for (k, low) in boxes.lows.iter().enumerate() {
        let cap = (boxes.caps[k] as usize).min(rest.len());
        let (own, after) = rest.split_at(cap);
        ys.push(*low + count_on(own) * boxes.step)?;
        rest = after;
    }
    Ok(ys)
}

/// How many units are on.
fn count_on(ons: &[bool]) -> u64
    ensures value { result ≡ trues ons.now }
    ensures small { result ≤ length ons.now }
{
    let mut all = 0;
    for on in ons {
        if *on {
            all += 1;
        }
    }
    all
}
