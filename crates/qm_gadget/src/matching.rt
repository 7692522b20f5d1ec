//! The matching that a list tells.

ghost use Rattle.std.specs.Prelude.{◌≡◌, ◌^◌, ◌≤◌, pos, ◌-ℤ◌, length, IfOk};
ghost use Rattle.def_flow.specs.Network.{network};
ghost use Rattle.def_flow.specs.Admissible.{deviation, entries, IsAdmissible};
ghost use Rattle.def_flow.specs.Gadget.{IsGadgetOf, IsInBox};
ghost use Rattle.def_matching.specs.Matching.{graph, matching_cost, IsPerfect};
ghost use Rattle.gadget_laws.specs.Marks.{places, states_marks};
ghost use Rattle.qm_gadget.specs.Layout.{copies_in};
ghost use Rattle.gadget_laws.specs.Box.{ups};
ghost use Rattle.qm_gadget.specs.Ready.{marks_over};

use crate::Memory;
use crate::boxes::Boxes;
use crate::marks::{Laid, push_units_marks};
use crate::plan::plan_of;
use crate::rim_marks::{push_rim_marks, rim_states_of};
use crate::states::{Stated, states_of};
use def_flow::Gadget;
use qm_net::BoundedNet;
use std::alloc::{AllocError, Global};

/// A perfect matching that tells a list of lengths in the box of a gadget, and costs the deviation of the list
/// less that of the lows. Linear in the arcs, nodes and units.
pub fn matching_of(
    alloc: Global,
    net: &BoundedNet,
    g: &Gadget,
    x2: &[u64],
) -> Result<Vec<u32>, Memory>
    requires gadget { IsGadgetOf (network net.now.whole.now) g.now }
    requires admissible { IsAdmissible (network net.now.whole.now) (entries x2.now) }
    requires inside { IsInBox g.now.step g.now.low.items g.now.cap.items x2.now }
    ensures perfect { IfOk result (λ m. IsPerfect (graph g.now.graph) m.items) }
    ensures cost { IfOk result (λ m.
        matching_cost (graph g.now.graph) m.items
        ≡ pos (deviation (network net.now.whole.now) (entries x2.now))
        -ℤ pos (deviation (network net.now.whole.now) (entries g.now.low.items))) }
{
    let boxes = Boxes {
        net: *net,
        lows: &g.low,
        caps: &g.cap,
        step: g.step,
    };
    matching_by(alloc, &boxes, x2)
}

/// The same, by the lows and caps of the gadget.
#[tactic(auto, using(crate::proofs::OfList::ups_length))]
fn matching_by(alloc: Global, boxes: &Boxes, x2: &[u64]) -> Result<Vec<u32>, AllocError>
    requires inside { IsInBox boxes.now.step boxes.now.lows.now boxes.now.caps.now x2.now }
    requires short { length (marks_over (network boxes.now.net.whole.now) boxes.now.step boxes.now.lows.now
        boxes.now.caps.now (ups boxes.now.step boxes.now.lows.now x2.now)) ≤ 2 ^ 26 }
    ensures { IfOk result (λ m.
        m.items ≡ places 0
        (marks_over (network boxes.now.net.whole.now) boxes.now.step boxes.now.lows.now boxes.now.caps.now
        (ups boxes.now.step boxes.now.lows.now x2.now))) }
{
    let plan = plan_of(alloc, boxes)?;
    let raised = ups_of(alloc, boxes, x2)?;
    let ons = states_of(alloc, boxes.caps, &raised)?;
    let stated = Stated {
        nodes: boxes.net.whole.nodes,
        units: &plan.units,
        ons: &ons,
    };
    let laid = Laid {
        counts: &plan.counts,
        stated,
    };
    marks_told(alloc, plan.lone, &laid)
}

/// How many steps each entry of a list is above its low.
fn ups_of(alloc: Global, boxes: &Boxes, x2: &[u64]) -> Result<Vec<u32>, AllocError>
    requires { IsInBox boxes.now.step boxes.now.lows.now boxes.now.caps.now x2.now }
    ensures { IfOk result (λ raised. raised.items ≡ ups boxes.now.step boxes.now.lows.now x2.now) }
{
    let mut raised = Vec::new(alloc);
    for (k, low) in boxes.lows.iter().enumerate() {
        let up = (x2[k] - low) / boxes.step;
        raised.push(up as u32)?;
    }
    Ok(raised)
}

/// The edges that states of the units choose.
fn marks_told(alloc: Global, lone: bool, laid: &Laid) -> Result<Vec<u32>, AllocError>
    requires { length (states_marks (length laid.now.counts.now) (copies_in laid.now.counts.now)
        lone laid.now.stated.units.now laid.now.stated.ons.now) ≤ 2 ^ 26 }
    ensures { IfOk result (λ m.
        m.items ≡ places 0
        (states_marks (length laid.now.counts.now) (copies_in laid.now.counts.now)
        lone laid.now.stated.units.now laid.now.stated.ons.now)) }
{
    let mut m = Vec::new(alloc);
    let past = push_units_marks(alloc, &mut m, laid)?;
    let states = rim_states_of(alloc, &laid.stated)?;
    push_rim_marks(&mut m, past, lone, &states)?;
    Ok(m)
}
