//! `grids`: a mesh is read with the lines that are kept, and the patches of a chosen cut are written as blocks.

ghost use Rattle.std.specs.Prelude.{◌≡◌, ◌≤◌, IfErr, IfOk, OnOk};
ghost use Rattle.def_io.specs.Moves.{change, stream};
ghost use Rattle.def_remesh.specs.Placings.{IsMeshLayout};
ghost use Rattle.def_run.specs.declared.command.TheConstants.{MAX_MULTIPLE};
ghost use Rattle.qm_top.specs.Blocking.{AreGridsBy, IsGridded};
ghost use Rattle.qm_top.specs.Refining.{FailsBy};
ghost use Rattle.qm_top.specs.Runs.{HasRun};
ghost use Rattle.qm_top.specs.Writing.{IsOfLayout, IsUnwritten, WroteText};

use crate::blocks::{blocks_of, write_blocks};
use crate::cuts::chosen_cut;
use crate::input::text_mesh;
use crate::refine::refined_cut;
use crate::refusal::Refusal;
use def_remesh::LayoutFail;
use def_run::Command;
use def_text::MAX_BYTES;
use qm_asides::read_kept;
use qm_blocktext::{Blocks, Chosen};
use qm_io::{Sink, Source, read_lines};
use qm_output::Room;
use qm_stages::CutMesh;
use std::alloc::Global;

/// Reads a mesh with the lines that are kept, divides each edge in so many, and writes the patches of the cut that is
/// chosen as blocks.
pub(crate) fn grids<S: Source, O: Sink>(
    alloc: Global,
    chosen: Chosen,
    by: u32,
    input: &mut S,
    out: &mut O,
) -> Result<(), Refusal>
    requires some { 1 ≤ by }
    requires few { by ≤ MAX_MULTIPLE }
    ensures { HasRun (Command.Grids chosen.keep chosen.patches by)
        (change (S.state input.old) (S.state input.new))
        (stream O.state out.old out.new) result }
{
    let lines = read_lines(alloc, input, MAX_BYTES)?;
    let read = text_mesh(alloc, &lines)?;
    let kept = read_kept(alloc, chosen.keep, &lines, &read)?;
    drop(lines);
    let cut = chosen_cut(alloc, read, kept.as_deref(), chosen.patches)?;
    write_grids(alloc, chosen, by, cut, out)
}

/// Writes the patches of a cut mesh as blocks.
fn write_grids<O: Sink>(
    alloc: Global,
    chosen: Chosen,
    by: u32,
    cut: CutMesh,
    out: &mut O,
) -> Result<(), Refusal>
    requires some { 1 ≤ by }
    requires few { by ≤ MAX_MULTIPLE }
    requires laid { IsMeshLayout cut.soup.faces cut.layout }
    ensures done { OnOk result (WroteText (IsGridded chosen.keep chosen.patches by cut)
        (change (O.state out.old) (O.state out.new))) }
    ensures refused { IfErr result (IsUnwritten (IsGridded chosen.keep chosen.patches by cut)
        (IsOfLayout (FailsBy by cut.layout)) (stream O.state out.old out.new)) }
{
    let blocks = grids_by(alloc, chosen, by, cut)?;
    let mut room = Room::new(alloc)?;
    write_blocks(&blocks, out, &mut room)?;
    Ok(())
}

/// The patches of a cut mesh as blocks, with each edge divided in so many.
fn grids_by(alloc: Global, chosen: Chosen, by: u32, cut: CutMesh) -> Result<Blocks, LayoutFail>
    requires some { 1 ≤ by }
    requires few { by ≤ MAX_MULTIPLE }
    ensures blocks { IfOk result (AreGridsBy chosen by cut) }
    ensures refused { IfErr result (FailsBy by cut.layout) }
{
    let points = refined_cut(alloc, by, cut)?;
    let blocks = blocks_of(alloc, Some(chosen), by, points)?;
    Ok(blocks)
}
