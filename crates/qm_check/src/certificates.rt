//! Which certificate of a text is used.

ghost use Rattle.std.specs.Prelude.{IfErr, IfOk};
ghost use Rattle.def_certtext.specs.CertLines.{alone, certificates_of, lists_of, raised};
ghost use Rattle.def_flow.specs.Network.{network};
ghost use Rattle.def_remesh.specs.Certified.{IsDoubling};
ghost use Rattle.def_remesh.specs.Keeping.{IsNetFor};
ghost use Rattle.def_remesh.specs.Tasks.{given_floors, Wish};
ghost use Rattle.qm_check.specs.Checked.{AreCheckable, IsChecked, IsUnused};

use crate::lengths::{Lengths, check_lengths};
use crate::rounds::{Run, check_rounds};
use def_certtext::{Certs, Terms};
use def_flow::{Cert, MAX_FLOOR, Net};
use def_run::{CheckFail, Why};
use qm_layoutnet::with_floor;
use qm_stages::CutMesh;
use qm_write::Remesh;
use std::alloc::Global;

/// What is kept by the certificates of a text, and how far the used lengths are from what is wanted.
#[derive(Drop)]
pub(crate) struct Checked {
    pub(crate) remesh: Remesh,
    pub(crate) deviation: u128,
}

/// Checks the certificates of a text one after the other, up to the first whose lengths double no edge.
pub(crate) fn check_certs(
    alloc: Global,
    cut: &CutMesh,
    net: Net,
    terms: Terms,
    certs: Certs,
) -> Result<Checked, CheckFail>
    requires certs { AreCheckable cut.now.layout (network net) terms (certificates_of certs) }
    ensures checked { (wish : Wish) → IsNetFor wish cut.now.layout terms.settings (network net)
        → IfOk result (IsChecked wish cut.now.layout (network net) terms (certificates_of certs)) }
    ensures unused { (wish : Wish) → IsNetFor wish cut.now.layout terms.settings (network net)
        → IfErr result (IsUnused wish cut.now.layout terms.settings (certificates_of certs)) }
{
    match certs {
        Certs::Alone { cert } => check_only(alloc, cut, &net, terms, cert),
        Certs::Raised { first, cert } => check_both(
            alloc,
            cut,
            net,
            terms,
            Pair { first, third: cert },
        ),
        Certs::Risen { rounds, cert } => check_rounds(alloc, cut, net, terms, Run { rounds, cert }),
    }
}

/// The certificates for floor 1 and for floor 3.
#[derive(Drop)]
struct Pair {
    first: Cert,
    third: Cert,
}

/// Checks the only certificate.
fn check_only(
    alloc: Global,
    cut: &CutMesh,
    net: &Net,
    terms: Terms,
    cert: Cert,
) -> Result<Checked, CheckFail>
    requires cert { AreCheckable cut.now.layout (network net.now) terms (alone (lists_of cert)) }
    ensures checked { (wish : Wish) → IsNetFor wish cut.now.layout terms.settings (network net.now)
        → IfOk result (IsChecked wish cut.now.layout (network net.now) terms (alone (lists_of cert))) }
    ensures unused { (wish : Wish) → IsNetFor wish cut.now.layout terms.settings (network net.now)
        → IfErr result (IsUnused wish cut.now.layout terms.settings (alone (lists_of cert))) }
{
    match check_lengths(alloc, cut, net, &cert)? {
        Lengths::Whole {
            numbering,
            deviation,
        } => Ok(Checked {
            remesh: Remesh {
                terms,
                certs: Certs::Alone { cert },
                numbering,
            },
            deviation,
        }),
        Lengths::Doubled { u, v } => Err(CheckFail::NotAccepted {
            why: Why::Doubled { u, v },
        }),
    }
}

/// Checks the certificate for floor 1, and the one for floor 3 where the lengths of the first double an edge.
fn check_both(
    alloc: Global,
    cut: &CutMesh,
    net: Net,
    terms: Terms,
    pair: Pair,
) -> Result<Checked, CheckFail>
    requires pair { AreCheckable cut.now.layout (network net) terms
        (raised (lists_of pair.first) (lists_of pair.third)) }
    ensures checked { (wish : Wish) → IsNetFor wish cut.now.layout terms.settings (network net)
        → IfOk result (IsChecked wish cut.now.layout (network net) terms
        (raised (lists_of pair.first) (lists_of pair.third))) }
    ensures unused { (wish : Wish) → IsNetFor wish cut.now.layout terms.settings (network net)
        → IfErr result (IsUnused wish cut.now.layout terms.settings
        (raised (lists_of pair.first) (lists_of pair.third))) }
{
    match check_lengths(alloc, cut, &net, &pair.first)? {
        Lengths::Whole {
            numbering,
            deviation,
        } => Ok(Checked {
            remesh: Remesh {
                terms,
                certs: Certs::Alone { cert: pair.first },
                numbering,
            },
            deviation,
        }),
        Lengths::Doubled { .. } => check_third(alloc, cut, net, terms, pair),
    }
}

/// Checks the certificate for floor 3. Lengths of at least 3 double no edge.
fn check_third(
    alloc: Global,
    cut: &CutMesh,
    net: Net,
    terms: Terms,
    pair: Pair,
) -> Result<Checked, CheckFail>
    requires pair { AreCheckable cut.now.layout (network net) terms
        (raised (lists_of pair.first) (lists_of pair.third)) }
    requires doubling { (wish : Wish) → IsNetFor wish cut.now.layout terms.settings (network net)
        → IsDoubling wish cut.now.layout terms.settings (given_floors terms.settings) (lists_of pair.first) }
    ensures checked { (wish : Wish) → IsNetFor wish cut.now.layout terms.settings (network net)
        → IfOk result (IsChecked wish cut.now.layout (network net) terms
        (raised (lists_of pair.first) (lists_of pair.third))) }
    ensures unused { (wish : Wish) → IsNetFor wish cut.now.layout terms.settings (network net)
        → IfErr result (IsUnused wish cut.now.layout terms.settings
        (raised (lists_of pair.first) (lists_of pair.third))) }
{
    let higher = with_floor(net, MAX_FLOOR);
    let Pair { first, third } = pair;
    match check_lengths(alloc, cut, &higher, &third)? {
        Lengths::Whole {
            numbering,
            deviation,
        } => Ok(Checked {
            remesh: Remesh {
                terms,
                certs: Certs::Raised { first, cert: third },
                numbering,
            },
            deviation,
        }),
        Lengths::Doubled { .. } => unreachable!(),
    }
}
