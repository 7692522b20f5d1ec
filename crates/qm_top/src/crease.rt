//! `crease`: a mesh is read with the edges that its `l` lines mark, and remeshed so that these stay.

ghost use Rattle.std.specs.Prelude.{◌≡◌, Ok, false, IfErr, OnOk};
ghost use Rattle.def_certtext.specs.Settings.{AreInRange};
ghost use Rattle.def_marks.specs.Lines.{marks_in};
ghost use Rattle.def_feature.specs.Marks.{AreMarks};
ghost use Rattle.def_io.specs.Bytes.{Bytes};
ghost use Rattle.def_io.specs.Moves.{change, stream};
ghost use Rattle.def_run.specs.Crease.{AsksToCrease};
ghost use Rattle.qm_top.specs.Runs.{HasRun};
ghost use Rattle.qm_top.specs.Writing.{FailsAsked, IsOfLayout, IsUnwritten, ShowsAsked, WroteText};

use crate::cuts::chosen_cut;
use crate::finishing::write_framed;
use crate::heads::named_head;
use crate::input::text_mesh;
use crate::refusal::Refusal;
use def_certtext::{Rising, Terms};
use def_flow::Settings;
use def_patches::Patches;
use def_run::Command;
use def_text::MAX_BYTES;
use qm_asides::text_marks;
use qm_io::{Sink, Source, read_lines};
use qm_marktext::lines_between;
use qm_remesh::keep;
use qm_stages::Meshed;
use qm_write::Framed;
use std::alloc::Global;

/// Reads a mesh and its marked edges, and writes the new mesh with least lengths, with the lines of these edges and
/// with the certificate.
pub(crate) fn crease<S: Source, O: Sink>(
    alloc: Global,
    settings: Settings,
    input: &mut S,
    out: &mut O,
) -> Result<(), Refusal>
    requires { AreInRange settings false }
    ensures { HasRun (Command.Crease settings)
        (change (S.state input.old) (S.state input.new))
        (stream O.state out.old out.new) result }
{
    let lines = read_lines(alloc, input, MAX_BYTES)?;
    let read = text_mesh(alloc, &lines)?;
    let marks = text_marks(alloc, &lines, &read)?;
    drop(lines);
    crease_mesh(alloc, settings, read, marks, out)
}

/// Writes a mesh with least lengths over a cut that has its marked edges.
fn crease_mesh<O: Sink>(
    alloc: Global,
    settings: Settings,
    read: Meshed,
    marks: Vec<bool>,
    out: &mut O,
) -> Result<(), Refusal>
    requires settings { AreInRange settings false }
    requires marks { AreMarks read.faces marks.items }
    ensures done { (bytes : Bytes) → marks_in bytes read ≡ Ok marks.items
        → OnOk result (WroteText (ShowsAsked (AsksToCrease settings) bytes read)
        (change (O.state out.old) (O.state out.new))) }
    ensures refused { (bytes : Bytes) → marks_in bytes read ≡ Ok marks.items
        → IfErr result (IsUnwritten (ShowsAsked (AsksToCrease settings) bytes read)
        (IsOfLayout (FailsAsked (AsksToCrease settings) bytes read)) (stream O.state out.old out.new)) }
{
    let kept = Some(marks.as_slice());
    let cut = chosen_cut(alloc, read, kept, Patches::Traced)?;
    let terms = Terms {
        settings,
        rising: Rising::Never,
    };
    let remesh = keep(alloc, &cut, terms)?;
    let head = named_head(alloc, b"crease", &settings)?;
    let between = lines_between(alloc, kept, &cut, &remesh)?;
    let framed = Framed {
        head,
        between,
        remesh,
        shares: None,
    };
    write_framed(alloc, cut, framed, out)?;
    Ok(())
}
