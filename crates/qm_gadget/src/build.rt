//! Building a gadget.

ghost use Rattle.std.specs.Prelude.{◌≡◌, ◌*◌, ◌^◌, ◌≤◌, IfOk, length};
ghost use Rattle.def_flow.specs.Network.{network, tangle_number};
ghost use Rattle.def_flow.specs.Admissible.{entries, IsAdmissible};
ghost use Rattle.def_matching.specs.Matching.{graph, IsCheap, IsSmallGraph};
ghost use Rattle.def_flow.specs.MatchingGraph.{matching_graph};
ghost use Rattle.def_flow.specs.Gadget.{IsGadgetOf};
ghost use Rattle.def_flow.specs.Gadget.{caps as caps_of_list, lows as lows_of_list};
ghost use Rattle.def_flow.specs.Admissible.{AreNetLengths};
ghost use Rattle.qm_gadget.specs.Ready.{graph_by_lows};

use crate::Memory;
use crate::boxes::{Boxes, Stepped, caps_of, lows_of};
use crate::copies::Copies;
use crate::layout::{Covered, lay_out};
use crate::plan::plan_of;
use def_flow::{Gadget, MAX_STEP, MAX_TANGLE};
use def_matching::WGraph;
use qm_net::{BoundedNet, Lengths};
use std::alloc::{AllocError, Global};

/// The matching graph of an admissible list of lengths, for lists that differ from it by steps of this length.
/// Linear in the arcs, nodes and edges of the graph.
pub fn graph_of(alloc: Global, net: &BoundedNet, x: &[u64], step: u64) -> Result<Gadget, Memory>
    requires lengths { AreNetLengths net.now.whole.now.arcs.items x.now }
    requires admissible { IsAdmissible (network net.now.whole.now) (entries x.now) }
    requires tangle { tangle_number (network net.now.whole.now) ≤ MAX_TANGLE }
    requires step { (1 ≤ step) × (step ≤ MAX_STEP) }
    ensures graph { IfOk result (λ g. graph g.graph ≡ matching_graph (network net.now.whole.now) step x.now) }
    ensures low { IfOk result (λ g. g.low.items ≡ lows_of_list (network net.now.whole.now) step x.now) }
    ensures cap { IfOk result (λ g. g.cap.items ≡ caps_of_list (network net.now.whole.now) step x.now) }
    ensures step { IfOk result (λ g. g.step ≡ step) }
    ensures given { IfOk result (λ g. IsGadgetOf (network net.now.whole.now) g) }
    ensures small { IfOk result (λ g. IsSmallGraph (graph g.graph)) }
    ensures vertices { IfOk result (λ g. 16 * g.graph.n ≤ 9 * tangle_number (network net.now.whole.now)) }
    ensures edges { IfOk result (λ g. 8 * length g.graph.edges.items ≤ 9 * tangle_number (network net.now.whole.now)) }
    ensures cheap { IfOk result (λ g. IsCheap (graph g.graph)) }
{
    let lengths = Lengths { net: *net, x };
    let stepped = Stepped { lengths, step };
    let low = lows_of(alloc, &stepped)?;
    let cap = caps_of(alloc, &stepped)?;
    let boxes = Boxes {
        net: *net,
        lows: &low,
        caps: &cap,
        step,
    };
    let graph = graph_over(alloc, &boxes)?;
    Ok(Gadget {
        graph,
        low,
        cap,
        step,
    })
}

/// The graph of the units with these lows and caps.
fn graph_over(alloc: Global, boxes: &Boxes) -> Result<WGraph, AllocError>
    requires { (graph_by_lows (network boxes.now.net.whole.now) boxes.now.step boxes.now.lows.now boxes.now.caps.now).n
        ≤ 2 ^ 25 }
    ensures { IfOk result (λ g.
        graph g
        ≡ graph_by_lows (network boxes.now.net.whole.now) boxes.now.step boxes.now.lows.now boxes.now.caps.now) }
{
    let plan = plan_of(alloc, boxes)?;
    let copies = Copies::new(alloc, plan.counts)?;
    let covered = Covered {
        copies: &copies,
        units: &plan.units,
    };
    lay_out(alloc, &covered, plan.lone)
}
