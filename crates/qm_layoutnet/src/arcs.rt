//! The arcs of a network before their ends are known.

ghost use Rattle.std.specs.Prelude.{◌≡◌, ◌<◌, ◌^◌, length, map, IfOk};
ghost use Rattle.std.specs.List.{All};
ghost use Rattle.def_layout.specs.declared.tmesh.TArc.{TArc as Run};
ghost use Rattle.def_layoutnet.specs.LayoutNet.{weight_of};
ghost use Rattle.qm_layoutnet.specs.Ends.{arc_of, open_arc};

use def_flow::{Arc, End, MAX_WEIGHT, Settings, Weight};
use def_layout::TArc;
use std::alloc::{AllocError, Global};

/// The arcs with their lengths and weights, each with one end that stands for none.
pub(crate) fn open_arcs(
    alloc: Global,
    runs: &[TArc],
    set: &Settings,
) -> Result<Vec<Arc>, AllocError>
    requires { All (λ (run : Run). length run.darts.items < 2 ^ 32) runs.now }
    ensures { IfOk result (λ arcs. arcs.items ≡ map (open_arc set.now) runs.now) }
{
    let mut arcs = Vec::with_capacity(alloc, runs.len())?;
    for run in runs {
        arcs.push(open_arc(run.darts.len() as u32, set))?;
    }
    Ok(arcs)
}

/// An arc of this length.
fn open_arc(old: u32, set: &Settings) -> Arc
    ensures { result ≡ arc_of set.now old }
{
    let none = End {
        node: 0,
        plus: true,
    };
    Arc {
        left: none,
        right: None,
        old,
        weight: weight_of(set.weight, old),
        floor: set.floor,
    }
}

/// The weight of an arc of this length.
fn weight_of(weight: Weight, old: u32) -> u32
    ensures { result ≡ weight_of weight old }
{
    match weight {
        Weight::Plain => 1,
        Weight::Length => old.min(MAX_WEIGHT),
    }
}
