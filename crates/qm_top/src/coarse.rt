//! `coarse`: a mesh is read, and remeshed over fewer and larger patches.

ghost use Rattle.std.specs.Prelude.{◌≡◌, false, IfErr, OnOk};
ghost use Rattle.def_certtext.specs.Settings.{AreInRange};
ghost use Rattle.def_io.specs.Bytes.{Bytes};
ghost use Rattle.def_io.specs.Moves.{change, stream};
ghost use Rattle.def_run.specs.Coarse.{AsksToMerge};
ghost use Rattle.qm_top.specs.Runs.{HasRun};
ghost use Rattle.qm_top.specs.Writing.{FailsAsked, IsOfLayout, IsUnwritten, ShowsAsked, WroteText};

use crate::cuts::chosen_cut;
use crate::finishing::{Headed, finish};
use crate::heads::named_head;
use crate::input::read_mesh;
use crate::refusal::Refusal;
use def_certtext::{Rising, Terms};
use def_flow::Settings;
use def_patches::Patches;
use def_run::Command;
use qm_io::{Sink, Source};
use qm_stages::Meshed;
use std::alloc::Global;

/// Reads a mesh, merges the patches of its graph, and writes the new mesh with least lengths and their certificate.
pub(crate) fn coarse<S: Source, O: Sink>(
    alloc: Global,
    settings: Settings,
    input: &mut S,
    out: &mut O,
) -> Result<(), Refusal>
    requires { AreInRange settings false }
    ensures { HasRun (Command.Coarse settings)
        (change (S.state input.old) (S.state input.new))
        (stream O.state out.old out.new) result }
{
    let read = read_mesh(alloc, input)?;
    coarse_mesh(alloc, settings, read, out)
}

/// Writes a mesh with least lengths over its merged patches.
fn coarse_mesh<O: Sink>(
    alloc: Global,
    settings: Settings,
    read: Meshed,
    out: &mut O,
) -> Result<(), Refusal>
    requires { AreInRange settings false }
    ensures done { (bytes : Bytes) → OnOk result (WroteText (ShowsAsked (AsksToMerge settings) bytes read)
        (change (O.state out.old) (O.state out.new))) }
    ensures refused { (bytes : Bytes) → IfErr result (IsUnwritten (ShowsAsked (AsksToMerge settings) bytes read)
        (IsOfLayout (FailsAsked (AsksToMerge settings) bytes read)) (stream O.state out.old out.new)) }
{
    let cut = chosen_cut(alloc, read, None, Patches::Merged)?;
    let head = named_head(alloc, b"coarse", &settings)?;
    let terms = Terms {
        settings,
        rising: Rising::Never,
    };
    finish(alloc, cut, Headed { terms, head }, out)
}
