//! What the lines of an old text say beside its mesh.

ghost use Rattle.std.specs.Prelude.{◌≡◌, ◌≤◌, [], true, length, None, Ok, IfErr, IfOk};
ghost use Rattle.def_fit.specs.FitTasks.{asides_in};
ghost use Rattle.def_io.specs.Bytes.{Bytes};
ghost use Rattle.def_mesh.specs.Darts.{darts};
ghost use Rattle.def_patches.specs.Chosen.{AreKeptMarks};
ghost use Rattle.def_text.specs.FaceSet.{FaceSet};
ghost use Rattle.qm_asides.specs.Beside.{asides_of};
ghost use Rattle.qm_check.specs.Ready.{IsAsideFail};
ghost use Rattle.qm_check.specs.Refused.{of_marks};

use crate::parts::SmallText;
use def_fit::{Aim, Fit};
use def_marks::MarkFail;
use def_patches::Keep;
use def_run::CheckFail;
use def_text::{MAX_BYTES, MAX_V_LINES};
use qm_asides::{Asides, read_asides};
use qm_io::{Lines, MemSource, read_lines};
use qm_stages::Meshed;
use std::alloc::Global;

/// What the lines of an old text say beside its mesh, as far as a fit asks for it, or their first refusal. Its lines
/// are divided only where one is asked for.
pub(crate) fn old_asides(
    alloc: Global,
    text: &SmallText,
    old: &Meshed,
    fit: &Fit,
) -> Result<Asides, CheckFail>
    requires places { length old.now.pos ≤ MAX_V_LINES }
    ensures said { IfOk result (λ asides. asides_in fit.now text.now.bytes.now old.now ≡ Ok (asides_of asides)) }
    ensures inner { IfOk result (λ asides. AreKeptMarks old.now.faces (asides_of asides).kept) }
    ensures each { IfOk result (λ asides. fit.now.aim ≡ Aim.Wishes
        → length asides.wishes.items ≡ darts old.now.faces) }
    ensures refused { IfErr result (IsAsideFail fit.now text.now.bytes.now old.now) }
{
    if asks_for_none(fit) {
        return Ok(Asides {
            kept: None,
            wishes: Vec::new(alloc),
        });
    }
    let lines = lines_in(alloc, text)?;
    match read_asides(alloc, fit, &lines, old) {
        Ok(asides) => Ok(asides),
        Err(fail) => Err(refusal_of(fail)),
    }
}

/// Whether a fit asks for no lines beside a mesh.
fn asks_for_none(fit: &Fit) -> bool
    ensures none { result ≡ true → (bytes : Bytes) (soup : FaceSet)
        → asides_in fit.now bytes soup ≡ Ok (record { kept = None; wishes = [] }) }
    ensures other { result ≡ true → ¬ (fit.now.aim ≡ Aim.Wishes) }
{
    match (fit.keep, fit.aim) {
        (Keep::Lines, _) => false,
        (Keep::Nothing, Aim::Wishes) => false,
        _ => true,
    }
}

/// The lines of a text in memory. A source in memory does not fail.
fn lines_in(alloc: Global, text: &SmallText) -> Result<Lines, CheckFail>
    ensures lines { IfOk result (λ lines. lines ≡ text.now.bytes.now) }
    ensures refused { IfErr result (λ fail. fail ≡ CheckFail.Memory) }
{
    let mut bytes = Vec::new(alloc);
    bytes.extend_from_slice(text.bytes)?;
    let mut source = MemSource::new(bytes, MAX_BYTES as usize, Vec::new(alloc));
    match read_lines(alloc, &mut source, MAX_BYTES) {
        Ok(lines) => Ok(lines),
        Err(_) => Err(CheckFail::Memory),
    }
}

/// The refusal of a text one of whose lines is refused.
fn refusal_of(fail: MarkFail) -> CheckFail
    ensures { result ≡ of_marks fail }
{
    match fail {
        MarkFail::Memory => CheckFail::Memory,
        _ => CheckFail::Marks { fail },
    }
}
