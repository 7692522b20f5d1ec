//! `refine`: a mesh is read, and written with each edge divided in so many.

ghost use Rattle.std.specs.Prelude.{◌≡◌, ◌≤◌, None, IfOk, IfErr, OnOk, OnErr};
ghost use Rattle.def_io.specs.Faults.{Rose};
ghost use Rattle.def_io.specs.Moves.{change, stream, took, TookPrefix};
ghost use Rattle.def_layout.specs.Arcs.{long_at};
ghost use Rattle.def_remesh.specs.NewPoints.{lengths_in, multiple_of};
ghost use Rattle.def_remesh.specs.Refined.{refined_faces, refined_text};
ghost use Rattle.def_remesh.specs.Stitched.{KeepsShapes};
ghost use Rattle.def_remesh.specs.declared.limits.TheConstants.{MAX_NEW_FACES};
ghost use Rattle.def_run.specs.declared.command.TheConstants.{MAX_MULTIPLE};
ghost use Rattle.qm_top.specs.Refining.{FailsBy, FailsToRefine, IsRefinedMesh, ShowsRefined};
ghost use Rattle.qm_top.specs.Runs.{HasRun};
ghost use Rattle.qm_top.specs.Writing.{IsOfLayout, IsUnwritten, WroteText};

use crate::cuts::traced_cut;
use crate::input::read_mesh;
use crate::refusal::Refusal;
use def_output::Stopped;
use def_remesh::{Kept, LayoutFail, StitchFail};
use def_run::Command;
use qm_io::{Sink, Source};
use qm_output::{Buffer, Room};
use qm_refine::{put_refined, refined_points};
use qm_stages::{CutMesh, Meshed, Regridded};
use std::alloc::Global;

/// Reads a mesh, divides each edge in so many, and writes the new mesh.
pub(crate) fn refine<S: Source, O: Sink>(
    alloc: Global,
    by: u32,
    input: &mut S,
    out: &mut O,
) -> Result<(), Refusal>
    requires some { 1 ≤ by }
    requires few { by ≤ MAX_MULTIPLE }
    ensures { HasRun (Command.Refine by)
        (change (S.state input.old) (S.state input.new))
        (stream O.state out.old out.new) result }
{
    let read = read_mesh(alloc, input)?;
    refine_mesh(alloc, by, read, out)
}

/// Writes a mesh with each edge divided in so many.
fn refine_mesh<O: Sink>(alloc: Global, by: u32, read: Meshed, out: &mut O) -> Result<(), Refusal>
    requires some { 1 ≤ by }
    requires few { by ≤ MAX_MULTIPLE }
    ensures done { OnOk result (WroteText (ShowsRefined by read)
        (change (O.state out.old) (O.state out.new))) }
    ensures refused { IfErr result (IsUnwritten (ShowsRefined by read) (IsOfLayout (FailsToRefine by read))
        (stream O.state out.old out.new)) }
{
    let new = refined(alloc, by, read)?;
    let mut room = Room::new(alloc)?;
    write_refined(by, &new, out, &mut room)?;
    Ok(())
}

/// The new mesh with each edge divided in so many.
pub(crate) fn refined(alloc: Global, by: u32, read: Meshed) -> Result<Regridded, LayoutFail>
    requires some { 1 ≤ by }
    requires few { by ≤ MAX_MULTIPLE }
    ensures new { IfOk result (IsRefinedMesh by read) }
    ensures refused { IfErr result (FailsToRefine by read) }
{
    let cut = traced_cut(alloc, read)?;
    refined_cut(alloc, by, cut)
}

/// The same over any cut.
pub(crate) fn refined_cut(alloc: Global, by: u32, cut: CutMesh) -> Result<Regridded, LayoutFail>
    requires some { 1 ≤ by }
    requires few { by ≤ MAX_MULTIPLE }
    ensures new { IfOk result (λ new. (new.soup ≡ cut.soup) × (new.layout ≡ cut.layout)
        × (lengths_in new.lengths ≡ multiple_of by (long_at cut.layout.arcs)) × (new.shares ≡ None)) }
    ensures few { OnOk result (refined_faces by cut.layout ≤ MAX_NEW_FACES) }
    ensures shape { OnOk result (KeepsShapes cut.layout (multiple_of by (long_at cut.layout.arcs))) }
    ensures refused { IfErr result (FailsBy by cut.layout) }
{
    match refined_points(alloc, cut, by) {
        Ok(new) => Ok(new),
        Err(StitchFail::TooFine { faces }) => Err(LayoutFail::TooFine {
            faces,
            kept: Kept::Multiple { by },
        }),
        Err(StitchFail::Doubled { .. }) => unreachable!(),
        Err(StitchFail::Memory) => Err(LayoutFail::Memory),
    }
}

/// Writes the text of the new mesh through a buffer.
fn write_refined<O: Sink>(
    by: u32,
    new: &Regridded,
    out: &mut O,
    room: &mut Room,
) -> Result<(), Stopped>
    requires lengths { lengths_in new.now.lengths ≡ multiple_of by (long_at new.now.layout.arcs) }
    requires even { new.now.shares ≡ None }
    ensures whole { OnOk result ((O.state out.new).told
        ≡ took (O.state out.old).told (refined_text by new.now.soup new.now.layout)) }
    ensures prefix { OnErr result (TookPrefix (O.state out.old).told (O.state out.new).told
        (refined_text by new.now.soup new.now.layout)) }
    ensures fault { OnErr result (Rose (O.state out.old).faults (O.state out.new).faults) }
{
    let mut text = Buffer::new(out, room);
    put_refined(&mut text, by, new)?;
    text.flush()
}
