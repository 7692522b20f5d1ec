//! The lows of arcs, and their numbers of units.

ghost use Rattle.std.specs.Prelude.{◌≡◌, ◌+◌, ◌*◌, ◌≤◌, IfOk};
ghost use Rattle.def_flow.specs.Units.{arcwise, down, low, cap};
ghost use Rattle.def_flow.specs.Network.{network};
ghost use Rattle.def_flow.specs.declared.limits.TheConstants.{MAX_STEP};
ghost use Rattle.qm_net.specs.Balance.{AreHigh};
ghost use Rattle.std.proofs.Props.{props};
ghost use Rattle.qm_gadget.specs.Layout.{EndsBelow-prop};
ghost use Rattle.qm_gadget.specs.Ready.{IsReady};

use def_flow::Arc;
use qm_net::{BoundedNet, Lengths};
use std::alloc::{AllocError, Global};

/// The lengths that the units of all arcs can give: the least length of each arc, its number of units, and the step.
/// There are few units, and their ends are at nodes.
#[derive(Clone, Copy)]
pub(crate) struct Boxes<'a> {
    pub net: BoundedNet<'a>,
    pub lows: &'a [u64],
    pub caps: &'a [u32],
    pub step: u64,
    ghost steps: { (1 ≤ step) × (step ≤ MAX_STEP) },
    ghost ready: { IsReady (network net.whole.now) step lows.now caps.now } by { Prim.hlevel (EndsBelow-prop, props) },
}

/// Lengths that are at least the floors of their arcs, and how far a step goes.
#[derive(Clone, Copy)]
pub(crate) struct Stepped<'n, 'x> {
    pub lengths: Lengths<'n, 'x>,
    pub step: u64,
    ghost high: { AreHigh lengths.net.whole.now.arcs.items lengths.x.now },
    ghost steps: { (1 ≤ step) × (step ≤ MAX_STEP) },
}

/// How many steps an arc of this length can give up, at most 2 of them.
fn steps_down(arc: &Arc, step: u64, length: u64) -> u64
    requires step { 1 ≤ step }
    requires high { arc.now.floor ≤ length }
    ensures value { result ≡ down step arc.now length }
    ensures small { result ≤ 2 }
{
    ((length - u64::from(arc.floor)) / step).min(2)
}

/// The least length that the units of an arc of this length can give.
fn low_of(arc: &Arc, step: u64, length: u64) -> u64
    requires step { (1 ≤ step) × (step ≤ MAX_STEP) }
    requires high { arc.now.floor ≤ length }
    ensures value { result ≡ low step arc.now length }
{
    length - steps_down(arc, step, length) * step
}

/// The least length of each arc that the units can give.
pub(crate) fn lows_of(alloc: Global, stepped: &Stepped) -> Result<Vec<u64>, AllocError>
    ensures { IfOk result (λ lows.
        lows.items
        ≡ arcwise (low stepped.now.step) stepped.now.lengths.net.whole.now.arcs.items stepped.now.lengths.x.now) }
{
    let mut lows = Vec::with_capacity(alloc, stepped.lengths.x.len())?;
    for (k, length) in stepped.lengths.x.iter().enumerate() {
        let arc = &stepped.lengths.net.whole.arcs[k];
        lows.push(low_of(arc, stepped.step, *length))?;
    }
    Ok(lows)
}

/// The number of units of each arc.
pub(crate) fn caps_of(alloc: Global, stepped: &Stepped) -> Result<Vec<u32>, AllocError>
    ensures { IfOk result (λ caps.
        caps.items
        ≡ arcwise (cap stepped.now.step) stepped.now.lengths.net.whole.now.arcs.items stepped.now.lengths.x.now) }
{
    let mut caps = Vec::with_capacity(alloc, stepped.lengths.x.len())?;
    for (k, length) in stepped.lengths.x.iter().enumerate() {
        let arc = &stepped.lengths.net.whole.arcs[k];
        caps.push(steps_down(arc, stepped.step, *length) as u32 + 2)?;
    }
    Ok(caps)
}
