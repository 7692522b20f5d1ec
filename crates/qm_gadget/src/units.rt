//! The units of arcs, by lows and caps.

ghost use Rattle.std.specs.Prelude.{◌≡◌, ◌+◌, ◌*◌, ◌^◌, ◌<◌, ◌≤◌, ◌++◌, [], ◌∷◌, pos, ◌-ℤ◌, length, slice_index};
ghost use Rattle.std.specs.Prelude.{OnOk, IfOk};
ghost use Rattle.def_flow.specs.Network.{arc_at, network};
ghost use Rattle.def_flow.specs.Admissible.{arc_deviation as deviation_of_arc};
ghost use Rattle.def_flow.specs.Units.{units_from, unit_at, units_over};

use crate::boxes::Boxes;
use def_flow::{ArcUnit, MAX_STEP};
use qm_net::{BoundedNet, arc_deviation};
use std::alloc::{AllocError, Global};

/// The units of all arcs, in order, by the least length and the number of units of each arc.
pub(crate) fn units_of(alloc: Global, boxes: &Boxes) -> Result<Vec<ArcUnit>, AllocError>
    ensures { IfOk result (λ units.
        units.items
        ≡ units_over (network boxes.now.net.whole.now) boxes.now.step boxes.now.net.whole.now.arcs.items
        boxes.now.lows.now boxes.now.caps.now) }
{
    let mut units = Vec::new(alloc);
    for k in 0..boxes.lows.len() {
        push_units_of(boxes, k, &mut units)?;
    }
    Ok(units)
}

/// Adds the units of an arc.
fn push_units_of(boxes: &Boxes, k: usize, units: &mut Vec<ArcUnit>) -> Result<(), AllocError>
    requires { k < length boxes.now.lows.now }
    ensures { OnOk result
        (units.new.items
        ≡ units.old.items
        ++ units_from (network boxes.now.net.whole.now) boxes.now.step (arc_at boxes.now.net.whole.now.arcs.items k)
        (slice_index boxes.now.lows.now k) 0 (slice_index boxes.now.caps.now k)) }
{
    for j in 0..boxes.caps[k] {
        push_unit(unit_at(boxes, k, j), units)?;
    }
    Ok(())
}

/// One unit of an arc.
fn unit_at(boxes: &Boxes, k: usize, j: u32) -> ArcUnit
    requires arc { k < length boxes.now.lows.now }
    requires unit { j < slice_index boxes.now.caps.now k }
    ensures { result
        ≡ unit_at (network boxes.now.net.whole.now) boxes.now.step (arc_at boxes.now.net.whole.now.arcs.items k)
        (slice_index boxes.now.lows.now k) j }
{
    let lower = boxes.lows[k] + u64::from(j) * boxes.step;
    let arc = boxes.net.arc(k);
    ArcUnit {
        left: arc.left,
        right: arc.right,
        cost: unit_cost(&boxes.net, k, lower, boxes.step),
    }
}

fn push_unit(unit: ArcUnit, units: &mut Vec<ArcUnit>) -> Result<(), AllocError>
    ensures { OnOk result (units.new.items ≡ units.old.items ++ unit ∷ []) }
{
    units.push(unit)?;
    Ok(())
}

/// What a unit costs that begins at this length: the deviation at its upper end less that at its lower end.
fn unit_cost(net: &BoundedNet, k: usize, lower: u64, step: u64) -> i64
    requires arc { k < length net.now.whole.now.arcs.items }
    requires small { (lower ≤ 2 * 10 ^ 12) × (step ≤ MAX_STEP) }
    ensures { result
        ≡ pos (deviation_of_arc (network net.now.whole.now) (arc_at net.now.whole.now.arcs.items k)
        (pos (lower + step)))
        -ℤ pos (deviation_of_arc (network net.now.whole.now) (arc_at net.now.whole.now.arcs.items k) (pos lower)) }
{
    arc_deviation(net, k, lower + step) as i64 - arc_deviation(net, k, lower) as i64
}
