//! The lines of the certificates of a remesh.

ghost use Rattle.std.specs.Prelude.{◌≡◌, ◌++◌, IfOk, OnOk};
ghost use Rattle.std.specs.List.{All};
ghost use Rattle.def_certtext.specs.CertLines.{certificates_of, lists_of, text_of, used, HasUps};
ghost use Rattle.def_certtext.specs.Laws.{certificate_lines, chosen_lines, AreWritable};
ghost use Rattle.qm_certtext.specs.RoundLines.{round_lines, HaveUps};

use crate::Memory;
use crate::cert::{push_cert, push_line, push_rises};
use def_certtext::{CertLine, Certs, Rising, Round};
use def_flow::Cert;
use std::alloc::Global;

/// The certificate whose lengths are used.
#[tactic(auto, using(crate::proofs::Texts::used_risen))]
pub fn used_cert(certs: &Certs) -> &Cert
    ensures { lists_of result.now ≡ used (certificates_of certs.now) }
{
    match certs {
        Certs::Alone { cert } => cert,
        Certs::Raised { cert, .. } => cert,
        Certs::Risen { cert, .. } => cert,
    }
}

/// The lines of the certificates of a remesh. Where floors rise, they begin with the floor of the first. Linear.
#[tactic(auto, using(crate::proofs::Texts::have_ups, crate::proofs::Texts::ups_used))]
pub fn certs_text(alloc: Global, rising: Rising, certs: &Certs) -> Result<Vec<u8>, Memory>
    requires { AreWritable rising (certificates_of certs.now) }
    ensures { IfOk result (λ text. text.items ≡ text_of (certificate_lines rising (certificates_of certs.now))) }
{
    let mut text = Vec::new(alloc);
    if rising == Rising::Never {
        push_cert(&mut text, used_cert(certs))?;
        return Ok(text);
    }
    push_line(&mut text, CertLine::Floor { floor: 1 })?;
    push_chosen(&mut text, certs)?;
    Ok(text)
}

/// The same behind the line that names the first floor.
fn push_chosen(text: &mut Vec<u8>, certs: &Certs) -> Result<(), Memory>
    requires { HaveUps (certificates_of certs.now) }
    ensures { OnOk result (text.new.items ≡ text.old.items ++ text_of (chosen_lines (certificates_of certs.now))) }
{
    match certs {
        Certs::Alone { cert } => push_cert(text, cert),
        Certs::Raised { first, cert } => {
            push_cert(text, first)?;
            push_line(text, CertLine::Floor { floor: 3 })?;
            push_cert(text, cert)
        }
        Certs::Risen { rounds, cert } => {
            push_rounds(text, rounds)?;
            push_cert(text, cert)
        }
    }
}

/// The lines of rounds: those of the certificate of each, and the floors that rise behind it.
fn push_rounds(text: &mut Vec<u8>, rounds: &[Round]) -> Result<(), Memory>
    requires { All (λ round. HasUps (lists_of round.cert)) rounds.now }
    ensures { OnOk result (text.new.items ≡ text.old.items ++ text_of (round_lines rounds.now)) }
{
    for round in rounds {
        push_cert(text, &round.cert)?;
        push_rises(text, &round.rises)?;
    }
    Ok(())
}
