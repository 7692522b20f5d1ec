//! `blocks`: a mesh is read, and its patches are written as blocks with each edge divided in so many.

ghost use Rattle.std.specs.Prelude.{◌≡◌, ◌≤◌, None, IfOk, IfErr, OnOk, OnErr};
ghost use Rattle.def_io.specs.Faults.{Rose};
ghost use Rattle.def_io.specs.Moves.{change, stream, took, TookPrefix};
ghost use Rattle.def_run.specs.Blocks.{IsBlocked};
ghost use Rattle.def_run.specs.declared.command.TheConstants.{MAX_MULTIPLE};
ghost use Rattle.qm_top.specs.Blocking.{told_text, AreBlocksBy, AreBlocksOf};
ghost use Rattle.qm_top.specs.Refining.{FailsToRefine};
ghost use Rattle.qm_top.specs.Runs.{HasRun};
ghost use Rattle.qm_top.specs.Writing.{IsOfLayout, IsUnwritten, WroteText};

use crate::input::read_mesh;
use crate::refine::refined;
use crate::refusal::Refusal;
use def_output::Stopped;
use def_remesh::LayoutFail;
use def_run::Command;
use qm_blocktext::{Blocks, Chosen, links_by, put_blocks};
use qm_io::{Memory, Sink, Source};
use qm_output::{Buffer, Room};
use qm_stages::{Meshed, Regridded};
use std::alloc::Global;

/// Reads a mesh, divides each edge in so many, and writes its patches as blocks.
pub(crate) fn blocks<S: Source, O: Sink>(
    alloc: Global,
    by: u32,
    input: &mut S,
    out: &mut O,
) -> Result<(), Refusal>
    requires some { 1 ≤ by }
    requires few { by ≤ MAX_MULTIPLE }
    ensures { HasRun (Command.Blocks by)
        (change (S.state input.old) (S.state input.new))
        (stream O.state out.old out.new) result }
{
    let read = read_mesh(alloc, input)?;
    blocks_mesh(alloc, by, read, out)
}

/// Writes the patches of a mesh as blocks.
fn blocks_mesh<O: Sink>(alloc: Global, by: u32, read: Meshed, out: &mut O) -> Result<(), Refusal>
    requires some { 1 ≤ by }
    requires few { by ≤ MAX_MULTIPLE }
    ensures done { OnOk result (WroteText (IsBlocked by read)
        (change (O.state out.old) (O.state out.new))) }
    ensures refused { IfErr result (IsUnwritten (IsBlocked by read) (IsOfLayout (FailsToRefine by read))
        (stream O.state out.old out.new)) }
{
    let blocks = blocks_by(alloc, by, read)?;
    let mut room = Room::new(alloc)?;
    write_blocks(&blocks, out, &mut room)?;
    Ok(())
}

/// The blocks of a mesh with each edge divided in so many.
fn blocks_by(alloc: Global, by: u32, read: Meshed) -> Result<Blocks, LayoutFail>
    requires some { 1 ≤ by }
    requires few { by ≤ MAX_MULTIPLE }
    ensures blocks { IfOk result (AreBlocksBy by read) }
    ensures refused { IfErr result (FailsToRefine by read) }
{
    let points = refined(alloc, by, read)?;
    let blocks = blocks_of(alloc, None, by, points)?;
    Ok(blocks)
}

/// The blocks of these points, which stand at so many times the old lengths.
pub(crate) fn blocks_of(
    alloc: Global,
    chosen: Option<Chosen>,
    by: u32,
    points: Regridded,
) -> Result<Blocks, Memory>
    requires few { by ≤ MAX_MULTIPLE }
    requires even { points.shares ≡ None }
    ensures { IfOk result (AreBlocksOf chosen by points) }
{
    let links = links_by(alloc, points.cut(), by)?;
    Ok(Blocks {
        chosen,
        by,
        points,
        links,
    })
}

/// Writes the text of the blocks through a buffer.
pub(crate) fn write_blocks<O: Sink>(
    blocks: &Blocks,
    out: &mut O,
    room: &mut Room,
) -> Result<(), Stopped>
    ensures whole { OnOk result ((O.state out.new).told ≡ took (O.state out.old).told (told_text blocks.now)) }
    ensures prefix { OnErr result (TookPrefix (O.state out.old).told (O.state out.new).told (told_text blocks.now)) }
    ensures fault { OnErr result (Rose (O.state out.old).faults (O.state out.new).faults) }
{
    let mut text = Buffer::new(out, room);
    put_blocks(&mut text, blocks)?;
    text.flush()
}
