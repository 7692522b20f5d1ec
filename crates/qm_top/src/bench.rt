//! `bench`: a mesh that is made from a number is remeshed, and a line that sums it up is written.

ghost use Rattle.std.specs.Prelude.{◌≡◌, ◌≤◌, IfErr, OnOk};
ghost use Rattle.def_gen.specs.Steps.{steps_soup};
ghost use Rattle.def_io.specs.Moves.{change, stream, StreamState};
ghost use Rattle.def_run.specs.Bench.{IsBenchFail, WritesBench};
ghost use Rattle.qm_top.specs.Runs.{HasRun};
ghost use Rattle.qm_top.specs.Writing.{IsOfLayout, IsUnwritten, WroteText};

use crate::input::mesh_of;
use crate::refusal::Refusal;
use crate::summary::summary_of;
use def_run::{Command, MAX_SIZE};
use qm_gen::steps_mesh;
use qm_io::{Sink, write_all};
use qm_stages::Meshed;
use std::alloc::Global;

/// Makes the mesh of a size, remeshes it, and writes the line that sums it up. It reads nothing.
pub(crate) fn bench<O: Sink>(alloc: Global, size: u32, out: &mut O) -> Result<(), Refusal>
    requires low { 1 ≤ size }
    requires high { size ≤ MAX_SIZE }
    ensures { (state : StreamState) → HasRun (Command.Bench size)
        (change state state) (stream O.state out.old out.new) result }
{
    let soup = steps_mesh(alloc, size)?;
    let made = mesh_of(alloc, soup)?;
    bench_mesh(alloc, size, made, out)
}

/// Writes the line of the benchmark of this size, whose mesh this is.
fn bench_mesh<O: Sink>(alloc: Global, size: u32, made: Meshed, out: &mut O) -> Result<(), Refusal>
    requires { made ≡ steps_soup size }
    ensures done { OnOk result (WroteText (WritesBench size)
        (change (O.state out.old) (O.state out.new))) }
    ensures refused { IfErr result (IsUnwritten (WritesBench size) (IsOfLayout (IsBenchFail size))
        (stream O.state out.old out.new)) }
{
    let text = summary_of(alloc, made, size)?;
    write_all(out, &text)?;
    Ok(())
}
