//! `remesh`: a mesh is read, and written with least lengths and the certificates that show it.

ghost use Rattle.std.specs.Prelude.{◌≡◌, IfErr, OnOk};
ghost use Rattle.def_certtext.specs.Settings.{AreInRange};
ghost use Rattle.def_io.specs.Bytes.{Bytes};
ghost use Rattle.def_io.specs.Moves.{change, stream};
ghost use Rattle.def_run.specs.Remesh.{AsksToRemesh};
ghost use Rattle.qm_top.specs.Runs.{HasRun};
ghost use Rattle.qm_top.specs.Writing.{FailsAsked, IsOfLayout, IsUnwritten, ShowsAsked, WroteText};

use crate::cuts::traced_cut;
use crate::finishing::{Headed, finish};
use crate::input::read_mesh;
use crate::refusal::Refusal;
use def_certtext::{Asked, Terms};
use def_run::Command;
use qm_certtext::{head_text, third_if};
use qm_io::{Sink, Source};
use qm_stages::Meshed;
use std::alloc::Global;

/// Reads a mesh, finds least lengths for its layout, and writes the new mesh with their certificates.
pub(crate) fn remesh<S: Source, O: Sink>(
    alloc: Global,
    asked: Asked,
    input: &mut S,
    out: &mut O,
) -> Result<(), Refusal>
    requires { AreInRange asked.settings asked.auto }
    ensures { HasRun (Command.Remesh asked.settings asked.auto)
        (change (S.state input.old) (S.state input.new))
        (stream O.state out.old out.new) result }
{
    let read = read_mesh(alloc, input)?;
    remesh_mesh(alloc, asked, read, out)
}

/// Writes a mesh with least lengths.
fn remesh_mesh<O: Sink>(
    alloc: Global,
    asked: Asked,
    read: Meshed,
    out: &mut O,
) -> Result<(), Refusal>
    requires { AreInRange asked.settings asked.auto }
    ensures done { (bytes : Bytes) → OnOk result (WroteText
        (ShowsAsked (AsksToRemesh asked.settings asked.auto) bytes read)
        (change (O.state out.old) (O.state out.new))) }
    ensures refused { (bytes : Bytes) → IfErr result (IsUnwritten
        (ShowsAsked (AsksToRemesh asked.settings asked.auto) bytes read)
        (IsOfLayout (FailsAsked (AsksToRemesh asked.settings asked.auto) bytes read))
        (stream O.state out.old out.new)) }
{
    let cut = traced_cut(alloc, read)?;
    let head = head_text(alloc, &asked.settings, asked.auto)?;
    let terms = Terms {
        settings: asked.settings,
        rising: third_if(asked.auto),
    };
    finish(alloc, cut, Headed { terms, head }, out)
}
