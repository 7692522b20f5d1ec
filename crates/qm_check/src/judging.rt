//! One text, from its certificates to the verdict.

ghost use Rattle.std.specs.Prelude.{◌+◌, drop, IfErr, IfOk};
ghost use Rattle.def_certtext.specs.CertLines.{certificates_of};
ghost use Rattle.def_certtext.specs.Reading.{TellCerts};
ghost use Rattle.def_io.specs.Lines.{lines_of, tail_of};
ghost use Rattle.def_remesh.specs.Tasks.{Task};
ghost use Rattle.qm_check.specs.Judged.{judged_by, Finishes, IsTextFail};
ghost use Rattle.qm_check.specs.Ready.{IsReady, TellsNothing};

use crate::certificates::check_certs;
use crate::comparing::compare;
use crate::parts::Divided;
use crate::ready::Ready;
use def_certtext::{CertFail, Certs, Rising};
use def_run::{CheckFail, Why};
use qm_certtext::read_certs;
use qm_marktext::lines_between;
use qm_stages::Regridded;
use qm_write::Framed;
use std::alloc::Global;

/// What a text shows that finishes a task: the new mesh, over the one that it was made of, and how far its lengths are
/// from what is wanted.
#[derive(Drop)]
pub(crate) struct Finished {
    pub(crate) new: Regridded,
    pub(crate) deviation: u128,
}

/// Judges the text from a head line on: its certificates are checked, and it is compared with the text as it is made
/// anew.
pub(crate) fn judge_text(alloc: Global, text: &Divided, ready: Ready) -> Result<Finished, CheckFail>
    requires ready { (task : Task) × IsReady task ready }
    ensures finished { (task : Task) → IsReady task ready
        → IfOk result (Finishes task ready (tail_of text.now.head.line text.now.bytes.now)) }
    ensures refused { (task : Task) → IsReady task ready
        → IfErr result (IsTextFail (judged_by text.now.bytes.now text.now.head.line ready.cut task)) }
{
    let certs = read_certificates(alloc, text, ready.frame.terms.rising)?;
    let Ready { cut, frame, net } = ready;
    let checked = check_certs(alloc, &cut, net, frame.terms, certs)?;
    let between = lines_between(alloc, frame.marks.as_deref(), &cut, &checked.remesh)?;
    let framed = Framed {
        head: frame.head,
        between,
        remesh: checked.remesh,
        shares: frame.shares,
    };
    let new = compare(alloc, &text.written_text(), cut, framed)?;
    Ok(Finished {
        new,
        deviation: checked.deviation,
    })
}

/// The certificates that the lines behind a head line say.
#[tactic(auto, using(qm_io::proofs::Cuts::lines_few))]
fn read_certificates(alloc: Global, text: &Divided, rising: Rising) -> Result<Certs, CheckFail>
    ensures told { IfOk result (λ certs.
        TellCerts rising (drop (text.now.head.line + 1) (lines_of text.now.bytes.now)) (certificates_of certs)) }
    ensures refused { IfErr result (TellsNothing rising text.now.bytes.now text.now.head.line) }
{
    match read_certs(alloc, text.text_behind(), text.head.line + 1, rising) {
        Ok(certs) => Ok(certs),
        Err(CertFail::Line { line }) => Err(CheckFail::NotAccepted {
            why: Why::CertLine { line },
        }),
        Err(CertFail::Head) => unreachable!(),
        Err(CertFail::Memory) => Err(CheckFail::Memory),
    }
}
