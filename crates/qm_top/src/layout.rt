//! `layout`: a mesh is read with the lines that are kept, and the text of the layout of a chosen cut is written.

ghost use Rattle.std.specs.Prelude.{◌≡◌, option_copied, IfErr, OnOk};
ghost use Rattle.def_cuttext.specs.LayoutText.{layout_text as text_of};
ghost use Rattle.def_io.specs.Bytes.{Bytes};
ghost use Rattle.def_io.specs.Moves.{change, stream};
ghost use Rattle.def_patches.specs.Chosen.{AreKeptMarks};
ghost use Rattle.qm_top.specs.LayingOut.{FailsNever};
ghost use Rattle.qm_top.specs.Runs.{HasRun};
ghost use Rattle.qm_top.specs.Writing.{IsOfLayout, IsUnwritten, WroteText};

use crate::cuts::chosen_cut;
use crate::input::text_mesh;
use crate::refusal::Refusal;
use def_run::Command;
use def_text::MAX_BYTES;
use qm_asides::read_kept;
use qm_blocktext::Chosen;
use qm_io::{Sink, Source, read_lines, write_all};
use qm_report::layout_text;
use qm_stages::CutMesh;
use std::alloc::Global;

/// Reads a mesh with the lines that are kept, and writes the layout of the cut that is chosen so.
pub(crate) fn layout<S: Source, O: Sink>(
    alloc: Global,
    chosen: Chosen,
    input: &mut S,
    out: &mut O,
) -> Result<(), Refusal>
    ensures { HasRun (Command.LayOut chosen.keep chosen.patches)
        (change (S.state input.old) (S.state input.new))
        (stream O.state out.old out.new) result }
{
    let lines = read_lines(alloc, input, MAX_BYTES)?;
    let read = text_mesh(alloc, &lines)?;
    let kept = read_kept(alloc, chosen.keep, &lines, &read)?;
    drop(lines);
    let marks = kept.as_deref();
    let cut = chosen_cut(alloc, read, marks, chosen.patches)?;
    write_layout(alloc, chosen, &cut, marks, out)
}

/// Writes the layout of the cut that is chosen so.
fn write_layout<O: Sink>(
    alloc: Global,
    chosen: Chosen,
    cut: &CutMesh,
    kept: Option<&[bool]>,
    out: &mut O,
) -> Result<(), Refusal>
    requires { AreKeptMarks cut.now.soup.faces (option_copied kept) }
    ensures done { OnOk result (WroteText (λ (text : Bytes). text ≡ text_of chosen.keep chosen.patches cut.now.soup
        (option_copied kept.entry) cut.now.layout) (change (O.state out.old) (O.state out.new))) }
    ensures refused { IfErr result (IsUnwritten (λ (text : Bytes). text ≡ text_of chosen.keep chosen.patches
        cut.now.soup (option_copied kept.entry) cut.now.layout) (IsOfLayout FailsNever)
        (stream O.state out.old out.new)) }
{
    let text = layout_text(alloc, chosen.keep, chosen.patches, cut, kept)?;
    write_all(out, &text)?;
    Ok(())
}
