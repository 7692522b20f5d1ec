//! One text of a pair, from its bytes to the verdict.

ghost use Rattle.std.specs.Prelude.{◌≡◌, ◌≤◌, ◌<◌, ◌^◌, length, IfErr, IfOk, MatchOption};
ghost use Rattle.def_certtext.specs.HeadLine.{IsLastHead};
ghost use Rattle.def_io.specs.Lines.{lines_of};
ghost use Rattle.def_layout.specs.Layouts.{gluing_of};
ghost use Rattle.def_remesh.specs.NewPoints.{lengths_in};
ghost use Rattle.def_run.specs.Check.{IsCountedPair};
ghost use Rattle.def_run.specs.CheckFails.{IsCheckFail, IsPairFail};
ghost use Rattle.def_run.specs.Checking.{HasFitText, IsCounted, IsCountedFit};
ghost use Rattle.def_run.specs.MapFails.{IsMapFail};
ghost use Rattle.def_text.specs.declared.limits.TheConstants.{MAX_BYTES};
ghost use Rattle.def_written.specs.NewFaces.{face_count};
ghost use Rattle.qm_check.specs.Making.{IsFitAt};

use crate::judging::{Finished, judge_text};
use crate::least::{least_of, remeshed};
use crate::making::ready_for;
use crate::map::judge_least;
use crate::old::read_old;
use crate::parts::{Divided, SmallText};
use def_run::{CheckFail, Why};
use qm_certtext::{HeadAt, find_head, read_head};
use qm_headline::{find_mark, read_mark};
use std::alloc::Global;

/// What is told of a pair: its arcs, the faces of the new mesh, and how far the lengths are from what is wanted.
#[derive(Clone, Copy, Debug, PartialEq, Eq)]
pub struct Accepted {
    pub arcs: u32,
    pub faces: u32,
    pub deviation: u128,
}

/// Checks a text. The last line that begins as a head line does divides it into an old text and the text of a remesh,
/// or of a fit. Of the latter only the certificates are kept; it is compared with the text as it is made anew.
pub fn check_pair(alloc: Global, bytes: &[u8]) -> Result<Accepted, CheckFail>
    requires { length bytes.now ≤ MAX_BYTES }
    ensures accepted { IfOk result (λ told. IsCounted bytes.now told.arcs told.faces told.deviation) }
    ensures refused { IfErr result (IsCheckFail bytes.now) }
{
    let text = SmallText { bytes };
    match find_fit(&text) {
        Some(head) => check_fit(alloc, &Divided { bytes, head }),
        None => check_remesh(alloc, &text),
    }
}

/// The last line that begins as a head line does, where it begins as that of `fit`.
fn find_fit(text: &SmallText) -> Option<HeadAt>
    ensures { MatchOption result (¬ HasFitText text.now.bytes.now) (IsFitAt text.now.bytes.now) }
{
    let Some(head) = find_mark(text.bytes) else {
        return None;
    };
    let divided = Divided {
        bytes: text.bytes,
        head,
    };
    if divided.head_line().starts_with(b"#quadq 1 fit ") {
        Some(head)
    } else {
        None
    }
}

/// Checks the text of a fit behind that of a mesh.
fn check_fit(alloc: Global, text: &Divided) -> Result<Accepted, CheckFail>
    requires fit { IsFitAt text.now.bytes.now text.now.head }
    ensures accepted { IfOk result (λ told. IsCountedFit text.now.bytes.now told.arcs told.faces told.deviation) }
    ensures refused { IfErr result (IsMapFail text.now.bytes.now) }
{
    let old = read_old(alloc, &text.old_text())?;
    let Some(command) = read_mark(text.head_line()) else {
        return Err(CheckFail::NotAccepted { why: Why::Head });
    };
    let Some(least) = least_of(&command) else {
        unreachable!()
    };
    let finished = judge_least(alloc, text, old, &least)?;
    Ok(told_of(&finished))
}

/// Checks the text of a remesh behind that of a mesh.
fn check_remesh(alloc: Global, text: &SmallText) -> Result<Accepted, CheckFail>
    ensures accepted { IfOk result (λ told. IsCountedPair text.now.bytes.now told.arcs told.faces told.deviation) }
    ensures refused { IfErr result (IsPairFail text.now.bytes.now) }
{
    let bytes = text.bytes;
    match find_head(bytes) {
        Some(head) => check_parts(alloc, &Divided { bytes, head }),
        None => Err(CheckFail::NotAccepted { why: Why::NoHead }),
    }
}

/// Checks the two parts that its last head line of a remesh divides.
#[tactic(auto, using(error_laws::proofs::Errors::handed, crate::proofs::Pairs::no_old))]
fn check_parts(alloc: Global, text: &Divided) -> Result<Accepted, CheckFail>
    requires last { IsLastHead (lines_of text.now.bytes.now) text.now.head.line }
    ensures accepted { IfOk result (λ told. IsCountedPair text.now.bytes.now told.arcs told.faces told.deviation) }
    ensures refused { IfErr result (IsPairFail text.now.bytes.now) }
{
    let front = text.old_text();
    let line = text.head_line();
    let old = read_old(alloc, &front)?;
    let Some(asked) = read_head(line) else {
        return Err(CheckFail::NotAccepted { why: Why::Head });
    };
    let ready = ready_for(alloc, &front, line, old, &remeshed(asked))?;
    let finished = judge_text(alloc, text, ready)?;
    Ok(told_of(&finished))
}

/// What is told of a text that is finished.
fn told_of(finished: &Finished) -> Accepted
    requires { length finished.now.new.layout.arcs < 2 ^ 32 }
    ensures arcs { result.arcs ≡ length finished.now.new.layout.arcs }
    ensures faces { result.faces
        ≡ face_count (gluing_of finished.now.new.layout) (lengths_in finished.now.new.lengths) }
    ensures deviation { result.deviation ≡ finished.now.deviation }
{
    let layout = finished.new.cut().layout();
    Accepted {
        arcs: layout.arcs.len() as u32,
        faces: finished.new.faces(),
        deviation: finished.deviation,
    }
}
