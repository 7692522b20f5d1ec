//! What the lengths of one certificate give.

ghost use Rattle.std.specs.Prelude.{◌≡◌, IfErr, IfOk, OnOk};
ghost use Rattle.def_certtext.specs.CertLines.{lists_of};
ghost use Rattle.def_flow.specs.Accepted.{certificate};
ghost use Rattle.def_flow.specs.Admissible.{deviation as deviation_of, entries};
ghost use Rattle.def_flow.specs.Descent.{IsSolution};
ghost use Rattle.def_flow.specs.Network.{network};
ghost use Rattle.def_layout.specs.Layouts.{Layout};
ghost use Rattle.qm_check.specs.Checked.{Gives, GivesNone, IsCheckable};

use def_flow::{Cert, CertVerdict, Net};
use def_remesh::StitchFail;
use def_run::{CheckFail, Why};
use qm_cert::accepts;
use qm_stages::{CutMesh, plan_over};
use qm_stitch::Numbering;
use std::alloc::Global;

/// What the lengths of an accepted certificate give.
#[derive(Drop)]
pub(crate) enum Lengths {
    /// A new mesh, whose points and faces are numbered; and how far the lengths are from what is wanted.
    Whole {
        numbering: Numbering,
        deviation: u128,
    },
    /// A doubled edge, first between these vertices.
    Doubled {
        u: u32,
        v: u32,
    },
}

/// Checks a certificate, and numbers the new mesh that its lengths give.
pub(crate) fn check_lengths(
    alloc: Global,
    cut: &CutMesh,
    net: &Net,
    cert: &Cert,
) -> Result<Lengths, CheckFail>
    requires cert { IsCheckable cut.now.layout (network net.now) (lists_of cert.now) }
    ensures solved { OnOk result (IsSolution (network net.now) (certificate cert.now)) }
    ensures gives { IfOk result (Gives cut.now.layout (network net.now) cert.now.x.items) }
    ensures refused { IfErr result (GivesNone cut.now.layout (network net.now) cert.now) }
{
    let deviation = accepted_deviation(alloc, net, cert)?;
    match plan_over(alloc, cut, &cert.x) {
        Ok(numbering) => Ok(Lengths::Whole {
            numbering,
            deviation,
        }),
        Err(StitchFail::TooFine { faces }) => Err(CheckFail::NotAccepted {
            why: Why::TooFine { faces },
        }),
        Err(StitchFail::Doubled { u, v }) => Ok(Lengths::Doubled { u, v }),
        Err(StitchFail::Memory) => Err(CheckFail::Memory),
    }
}

/// How far the lengths of an accepted certificate are from what is wanted.
fn accepted_deviation(alloc: Global, net: &Net, cert: &Cert) -> Result<u128, CheckFail>
    requires cert { (layout : Layout) × IsCheckable layout (network net.now) (lists_of cert.now) }
    ensures solved { OnOk result (IsSolution (network net.now) (certificate cert.now)) }
    ensures told { IfOk result (λ d. d ≡ deviation_of (network net.now) (entries cert.now.x.items)) }
    ensures refused { (layout : Layout) → IfErr result (GivesNone layout (network net.now) cert.now) }
{
    match accepts(alloc, net, cert)? {
        CertVerdict::Yes { deviation } => Ok(deviation.unsigned_abs()),
        verdict => Err(CheckFail::NotAccepted {
            why: Why::Verdict { verdict },
        }),
    }
}
