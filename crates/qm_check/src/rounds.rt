//! Which certificate of rounds is used.

ghost use Rattle.std.specs.Prelude.{◌≡◌, ◌∷◌, ◌++◌, [], length, IfErr, IfOk, OnOk};
ghost use Rattle.def_certtext.specs.CertLines.{alone, lists_of, risen_by};
ghost use Rattle.def_flow.specs.Network.{network};
ghost use Rattle.def_layout.specs.Lengths.{AreLengths};
ghost use Rattle.def_layout.specs.Layouts.{gluing_of};
ghost use Rattle.def_remesh.specs.Keeping.{IsNetFor};
ghost use Rattle.def_remesh.specs.NewPoints.{lengths_in};
ghost use Rattle.def_remesh.specs.Remeshed.{AreCoarse};
ghost use Rattle.def_remesh.specs.Rises.{AreNeeded};
ghost use Rattle.def_remesh.specs.Tasks.{Wish};
ghost use Rattle.qm_check.specs.Checked.{AreCheckable, IsChecked, IsNoRise, IsUnused};

use crate::certificates::Checked;
use crate::lengths::{Lengths, check_lengths};
use def_certtext::{Certs, Round, Terms};
use def_flow::{Cert, Net};
use def_run::{CheckFail, Why};
use qm_layoutnet::with_rises;
use qm_stages::{CutMesh, are_needed_over};
use qm_stitch::Numbering;
use qm_write::Remesh;
use std::alloc::{AllocError, Global};

/// Rounds, and the certificate of the last one.
#[derive(Drop)]
pub(crate) struct Run {
    pub(crate) rounds: Vec<Round>,
    pub(crate) cert: Cert,
}

/// Checks the certificates of rounds, up to the first whose lengths double no edge, and that the floors which rise
/// between them have to.
pub(crate) fn check_rounds(
    alloc: Global,
    cut: &CutMesh,
    net: Net,
    terms: Terms,
    run: Run,
) -> Result<Checked, CheckFail>
    requires run { AreCheckable cut.now.layout (network net) terms
        (risen_by run.rounds.items (alone (lists_of run.cert))) }
    ensures checked { (wish : Wish) → IsNetFor wish cut.now.layout terms.settings (network net)
        → IfOk result (IsChecked wish cut.now.layout (network net) terms
        (risen_by run.rounds.items (alone (lists_of run.cert)))) }
    ensures unused { (wish : Wish) → IsNetFor wish cut.now.layout terms.settings (network net)
        → IfErr result (IsUnused wish cut.now.layout terms.settings
        (risen_by run.rounds.items (alone (lists_of run.cert)))) }
{
    let Run { rounds, cert } = run;
    let mut passed = Vec::new(alloc);
    let mut net = net;
    'rounds: for round in rounds {
        match check_lengths(alloc, cut, &net, &round.cert)? {
            Lengths::Whole {
                numbering,
                deviation,
            } => {
                let certs = Certs::Risen {
                    rounds: passed,
                    cert: round.cert,
                };
                return Ok(checked_by(terms, certs, numbering, deviation));
            }
            Lengths::Doubled { .. } => {}
        }
        check_rises(alloc, cut, &round, passed.len() as u64 + 2)?;
        net = with_rises(net, &round.rises);
        push_round(&mut passed, round)?;
    }
    match check_lengths(alloc, cut, &net, &cert)? {
        Lengths::Whole {
            numbering,
            deviation,
        } => Ok(checked_by(
            terms,
            Certs::Risen {
                rounds: passed,
                cert,
            },
            numbering,
            deviation,
        )),
        Lengths::Doubled { u, v } => Err(CheckFail::NotAccepted {
            why: Why::Doubled { u, v },
        }),
    }
}

/// Checks that the floors which rise behind a certificate have to. It names the round that they begin.
fn check_rises(alloc: Global, cut: &CutMesh, round: &Round, number: u64) -> Result<(), CheckFail>
    requires long { length round.now.cert.x.items ≡ length cut.now.layout.arcs }
    requires lengths { AreLengths (gluing_of cut.now.layout) (lengths_in round.now.cert.x.items) }
    requires coarse { AreCoarse cut.now.layout round.now.cert.x.items }
    ensures needed { OnOk result
        (AreNeeded (gluing_of cut.now.layout) (lengths_in round.now.cert.x.items) round.now.rises.items) }
    ensures refused { IfErr result (IsNoRise cut.now.layout round.now number) }
{
    if are_needed_over(alloc, cut, &round.cert.x, &round.rises)? {
        return Ok(());
    }
    Err(CheckFail::NotAccepted {
        why: Why::Rises { round: number },
    })
}

/// A round more.
fn push_round(rounds: &mut Vec<Round>, round: Round) -> Result<(), AllocError>
    ensures { OnOk result (rounds.new.items ≡ rounds.old.items ++ round ∷ []) }
{
    rounds.push(round)?;
    Ok(())
}

/// What is kept by these certificates.
fn checked_by(terms: Terms, certs: Certs, numbering: Numbering, deviation: u128) -> Checked
    ensures { result ≡ record {
      remesh = record { terms = terms; certs = certs; numbering = numbering };
      deviation = deviation;
    } }
{
    let remesh = Remesh {
        terms,
        certs,
        numbering,
    };
    Checked { remesh, deviation }
}
