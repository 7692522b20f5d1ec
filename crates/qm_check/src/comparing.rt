//! A text against the one that is made anew.

ghost use Rattle.std.specs.Prelude.{◌≡◌, ◌≤◌, ◌+◌, IfErr, IfOk, OnOk};
ghost use Rattle.def_certtext.specs.CertLines.{certificates_of};
ghost use Rattle.def_remesh.specs.Keeping.{IsKept};
ghost use Rattle.def_remesh.specs.Tasks.{Wish};
ghost use Rattle.def_text.specs.declared.limits.TheConstants.{MAX_BYTES};
ghost use Rattle.qm_check.specs.Checked.{IsDifference};
ghost use Rattle.qm_write.specs.Framing.{framed_text};

use crate::parts::SmallText;
use def_run::{CheckFail, Why};
use qm_output::Comparison;
use qm_stages::{CutMesh, Regridded};
use qm_write::{Framed, PutFail, put_framed};
use std::alloc::Global;

/// Compares the bytes with the text of a remesh in its frame, which is made piece by piece and not kept. It gives back
/// the new mesh.
#[tactic(auto, using(crate::proofs::Pairs::stopped_within))]
pub(crate) fn compare(
    alloc: Global,
    given: &SmallText,
    cut: CutMesh,
    framed: Framed,
) -> Result<Regridded, CheckFail>
    requires kept { (wish : Wish) × IsKept wish cut.layout framed.remesh.terms.settings framed.remesh.terms.rising
        (certificates_of framed.remesh.certs) framed.remesh.numbering }
    ensures same { OnOk result (given.now.bytes.now ≡ framed_text framed cut.soup cut.layout) }
    ensures new { IfOk result (λ new. new ≡ record {
      soup = cut.soup;
      layout = cut.layout;
      lengths = framed.remesh.numbering.lengths.items;
      shares = framed.shares;
    }) }
    ensures other { IfErr result (IsDifference given.now.bytes.now (framed_text framed cut.soup cut.layout)) }
{
    let mut comparison = Comparison::new(given.bytes);
    match put_framed(alloc, &mut comparison, cut, framed) {
        Ok(new) if comparison.is_over() => Ok(new),
        Ok(_) => Err(other_from(comparison.at())),
        Err(PutFail::Stopped) => Err(other_from(comparison.at())),
        Err(PutFail::Memory) => Err(CheckFail::Memory),
    }
}

/// The refusal of a text that is another one behind so many bytes.
pub(crate) fn other_from(alike: usize) -> CheckFail
    requires { alike ≤ MAX_BYTES }
    ensures { result ≡ CheckFail.NotAccepted (Why.Byte (alike + 1)) }
{
    CheckFail::NotAccepted {
        why: Why::Byte {
            at: alike as u32 + 1,
        },
    }
}
