//! `fit`: a mesh is read with what the lines beside it say, and remeshed over the cut, near the lengths and with the
//! spacing that are chosen.

ghost use Rattle.std.specs.Prelude.{◌≡◌, Ok, length, IfErr, OnOk};
ghost use Rattle.def_fit.specs.Aims.{IsFit};
ghost use Rattle.def_fit.specs.FitTasks.{asides_in};
ghost use Rattle.def_io.specs.Bytes.{Bytes};
ghost use Rattle.def_io.specs.Moves.{change, stream};
ghost use Rattle.def_mesh.specs.Darts.{darts};
ghost use Rattle.def_patches.specs.Chosen.{AreKeptMarks};
ghost use Rattle.def_run.specs.Fit.{AsksForNearFit, AsksToFit};
ghost use Rattle.qm_asides.specs.Beside.{asides_of};
ghost use Rattle.qm_top.specs.Fitting.{FailsNear, IsFarTask, IsOfWishes};
ghost use Rattle.qm_top.specs.Runs.{HasRun};
ghost use Rattle.qm_top.specs.Writing.{IsUnwritten, ShowsAsked, WroteText};

use crate::cuts::chosen_cut;
use crate::finishing::write_framed;
use crate::input::text_mesh;
use crate::refusal::Refusal;
use def_fit::{Aim, Fit};
use def_run::Command;
use def_text::MAX_BYTES;
use qm_asides::{Asides, read_asides};
use qm_fit::fit_head;
use qm_io::{Sink, Source, read_lines};
use qm_marktext::lines_between;
use qm_metric::shares_of;
use qm_remesh::keep_fit;
use qm_stages::Meshed;
use qm_write::Framed;
use std::alloc::Global;

/// Reads a mesh with the lines beside it, and writes the new mesh with lengths nearest to those that are aimed at, with
/// the lines that are kept and with the certificate.
pub(crate) fn fit<S: Source, O: Sink>(
    alloc: Global,
    fit: &Fit,
    input: &mut S,
    out: &mut O,
) -> Result<(), Refusal>
    requires { IsFit fit.now }
    ensures { HasRun (Command.Fit fit.now)
        (change (S.state input.old) (S.state input.new))
        (stream O.state out.old out.new) result }
{
    let lines = read_lines(alloc, input, MAX_BYTES)?;
    let read = text_mesh(alloc, &lines)?;
    let asides = read_asides(alloc, fit, &lines, &read)?;
    drop(lines);
    fit_mesh(alloc, fit, read, asides, out)
}

/// Writes a mesh with least lengths over the cut that is chosen.
fn fit_mesh<O: Sink>(
    alloc: Global,
    fit: &Fit,
    read: Meshed,
    asides: Asides,
    out: &mut O,
) -> Result<(), Refusal>
    requires fit { IsFit fit.now }
    requires marks { AreKeptMarks read.faces (asides_of asides).kept }
    requires wishes { fit.now.aim ≡ Aim.Wishes → length asides.wishes.items ≡ darts read.faces }
    ensures done { (bytes : Bytes) → asides_in fit.now bytes read ≡ Ok (asides_of asides)
        → OnOk result (WroteText (ShowsAsked (AsksForNearFit fit.now) bytes read)
        (change (O.state out.old) (O.state out.new))) }
    ensures refused { (bytes : Bytes) → asides_in fit.now bytes read ≡ Ok (asides_of asides)
        → IfErr result (IsUnwritten (ShowsAsked (AsksForNearFit fit.now) bytes read)
        (IsOfWishes (FailsNear (AsksToFit fit.now) (AsksForNearFit fit.now) bytes read)
        (IsFarTask fit.now.aim (AsksToFit fit.now) bytes read)) (stream O.state out.old out.new)) }
{
    let kept = asides.kept.as_deref();
    let cut = chosen_cut(alloc, read, kept, fit.patches)?;
    let remesh = keep_fit(alloc, &cut, fit, &asides.wishes)?;
    let shares = shares_of(alloc, &cut, fit, &asides.wishes)?;
    let head = fit_head(alloc, fit)?;
    let between = lines_between(alloc, kept, &cut, &remesh)?;
    let framed = Framed {
        head,
        between,
        remesh,
        shares,
    };
    write_framed(alloc, cut, framed, out)?;
    Ok(())
}
