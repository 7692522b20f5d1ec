//! Where the descent may begin.

ghost use Rattle.std.specs.Prelude.{◌≡◌, ◌<◌, ◌≤◌, ◌*◌, ◌^◌, length, map, IfOk};
ghost use Rattle.std.specs.List.{All};
ghost use Rattle.def_layout.specs.Layouts.{layout_of};
ghost use Rattle.def_layout.specs.declared.tmesh.TArc.{TArc as Run};
ghost use Rattle.def_layoutnet.specs.MeshLayouts.{IsSomeLayout};
ghost use Rattle.def_metric.specs.Starts.{times_long};

use def_layout::{TArc, TMesh};
use std::alloc::{AllocError, Global};

/// The old lengths times the floor: a start of the descent, whatever lengths are wished for. Linear in the arcs.
pub fn old_start(alloc: Global, t: &TMesh, floor: u32) -> Result<Vec<u64>, AllocError>
    requires layout { IsSomeLayout (layout_of t.now) }
    ensures { IfOk result (λ start. start.items ≡ times_long floor (layout_of t.now)) }
{
    times_long(alloc, &t.arcs, floor)
}

/// The lengths of these arcs, so many times.
fn times_long(alloc: Global, runs: &[TArc], times: u32) -> Result<Vec<u64>, AllocError>
    requires { All (λ (run : Run). length run.darts.items < 2 ^ 32) runs.now }
    ensures { IfOk result (λ lengths. lengths.items ≡ map (λ (run : Run). times * length run.darts.items) runs.now) }
{
    let mut lengths = Vec::with_capacity(alloc, runs.len())?;
    for run in runs {
        lengths.push(u64::from(times) * run.darts.len() as u64)?;
    }
    Ok(lengths)
}
