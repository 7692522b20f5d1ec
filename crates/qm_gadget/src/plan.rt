//! What a matching graph is laid out from.

ghost use Rattle.std.specs.Prelude.{IfOk};
ghost use Rattle.def_flow.specs.Network.{network};
ghost use Rattle.qm_gadget.specs.Ready.{IsPlan};

use crate::boxes::Boxes;
use crate::states::{Stated, count_active, downs_of, is_rim_odd, states_of};
use crate::units::units_of;
use def_flow::ArcUnit;
use std::alloc::{AllocError, Global};

/// What a matching graph is laid out from: the units, the number of copies of each node, and whether there is a
/// lone vertex.
#[derive(Drop)]
pub struct Plan {
    pub units: Vec<ArcUnit>,
    pub counts: Vec<u32>,
    pub lone: bool,
}

/// The plan of the list with these lows and caps.
pub(crate) fn plan_of(alloc: Global, boxes: &Boxes) -> Result<Plan, AllocError>
    ensures { IfOk result (λ plan.
        IsPlan (network boxes.now.net.whole.now) boxes.now.step boxes.now.lows.now boxes.now.caps.now plan) }
{
    let units = units_of(alloc, boxes)?;
    let downs = downs_of(alloc, boxes.caps)?;
    let ons = states_of(alloc, boxes.caps, &downs)?;
    let stated = Stated {
        nodes: boxes.net.whole.nodes,
        units: &units,
        ons: &ons,
    };
    let counts = count_active(alloc, &stated)?;
    let lone = is_rim_odd(&stated);
    Ok(Plan {
        units,
        counts,
        lone,
    })
}
