//! Least lengths for a layout, with floors that rise by need, round after round.

ghost use Rattle.std.specs.Prelude.{◌≡◌, ◌<◌, ◌∷◌, ◌++◌, [], true, IfOk, IfErr, OnOk};
ghost use Rattle.def_certtext.specs.CertLines.{certificates_of};
ghost use Rattle.def_certtext.specs.declared.certs.Rising.TheVariants.{Rounds};
ghost use Rattle.def_fit.specs.Aims.{fit_settings, IsFit};
ghost use Rattle.def_flow.specs.Accepted.{certificate};
ghost use Rattle.def_flow.specs.Descent.{IsSolution};
ghost use Rattle.def_flow.specs.Network.{network, Network};
ghost use Rattle.def_remesh.specs.Keeping.{IsKept, IsNetFor};
ghost use Rattle.def_remesh.specs.Refusals.{IsLayoutFail};
ghost use Rattle.def_remesh.specs.Remeshed.{AreCoarse, AreDoubled};
ghost use Rattle.def_remesh.specs.Tasks.{Wish};
ghost use Rattle.qm_remesh.specs.Rounds.{room_of, IsFitNet, IsLedBy};

use crate::fitted::solve_fit;
use crate::prices::prices_of;
use def_certtext::{Certs, Rise, Rising, Round, Terms};
use def_fit::Fit;
use def_flow::{Cert, Net};
use def_remesh::{Kept, LayoutFail, StitchFail};
use qm_layoutnet::with_rises;
use qm_metric::fit_settings;
use qm_net::BoundedNet;
use qm_stages::{CutMesh, plan_over, rises_over};
use qm_write::Remesh;
use std::alloc::{AllocError, Global};

/// Rounds, the network with the floors that rose in them, and a certificate that solves it.
#[derive(Debug, Drop)]
struct Led {
    rounds: Vec<Round>,
    net: Net,
    cert: Cert,
}

/// Finds lengths for a fit whose network this certificate solves, and numbers the new mesh that they give. As long as
/// the lengths double an edge, floors rise for them, and the network is solved again.
///
/// A floor rises at most twice, so there are at most twice as many rounds as arcs. Each takes the time of `solve` or
/// `solve_near` and, beyond it, near linear in the sizes of the old and the new mesh.
pub(crate) fn keep_rounds(
    alloc: Global,
    cut: &CutMesh,
    fit: &Fit,
    net: Net,
    first: Cert,
) -> Result<Remesh, LayoutFail>
    requires fit { IsFit fit.now × (fit.now.auto ≡ true) }
    requires net { IsFitNet fit.now cut.now.layout (network net) }
    requires solved { IsSolution (network net) (certificate first) }
    ensures kept { (wish : Wish) → IsNetFor wish cut.now.layout (fit_settings fit.now) (network net)
        → IfOk result (λ kept. IsKept wish cut.now.layout (fit_settings fit.now) Rounds
        (certificates_of kept.certs) kept.numbering) }
    ensures terms { IfOk result (λ kept. kept.terms ≡ record { settings = fit_settings fit.now; rising = Rounds }) }
    ensures refused { (wish : Wish) → IsNetFor wish cut.now.layout (fit_settings fit.now) (network net)
        → IfErr result (IsLayoutFail wish cut.now.layout (fit_settings fit.now) Rounds) }
{
    let terms = Terms {
        settings: fit_settings(fit),
        rising: Rising::Rounds,
    };
    let mut led = Led {
        rounds: Vec::new(alloc),
        net,
        cert: first,
    };
    'rounds: loop {
        match plan_over(alloc, cut, &led.cert.x) {
            Ok(numbering) => {
                let certs = certs_of(led);
                return Ok(Remesh {
                    terms,
                    certs,
                    numbering,
                });
            }
            Err(StitchFail::TooFine { faces }) => {
                let certs = certs_of(led);
                let kept = Kept::Least { certs };
                return Err(LayoutFail::TooFine { faces, kept });
            }
            Err(StitchFail::Doubled { .. }) => {
                led = next_round(alloc, cut, fit, led)?;
            }
            Err(StitchFail::Memory) => return Err(LayoutFail::Memory),
        }
    }
}

/// The certificates.
fn certs_of(led: Led) -> Certs
    ensures { result ≡ Certs.Risen led.rounds led.cert }
{
    Certs::Risen {
        rounds: led.rounds,
        cert: led.cert,
    }
}

/// A round more: floors rise for the lengths, and the network is solved again.
fn next_round(alloc: Global, cut: &CutMesh, fit: &Fit, led: Led) -> Result<Led, AllocError>
    requires fit { IsFit fit.now × (fit.now.auto ≡ true) }
    requires led { (first : Network) × IsFitNet fit.now cut.now.layout first
        × IsLedBy cut.now.layout (fit_settings fit.now) first led.rounds.items (network led.net) led.cert }
    requires coarse { AreCoarse cut.now.layout led.cert.x.items }
    requires doubled { AreDoubled cut.now.layout led.cert.x.items }
    ensures led { (first : Network)
        → IsLedBy cut.now.layout (fit_settings fit.now) first led.rounds.items (network led.net) led.cert
        → IfOk result (λ next. IsLedBy cut.now.layout (fit_settings fit.now) first next.rounds.items (network next.net)
        next.cert) }
    ensures risen { IfOk result (λ next. room_of next.net.arcs.items < room_of led.net.arcs.items) }
{
    let Led { rounds, net, cert } = led;
    let bounded = BoundedNet { whole: &net };
    let prices = prices_of(alloc, &bounded, &cert.x)?;
    let rises = rises_over(alloc, cut, &cert.x, &prices)?;
    let higher = with_rises(net, &rises);
    let next = solve_fit(alloc, cut, fit, &higher)?;
    let mut more = rounds;
    push_round(&mut more, cert, rises)?;
    Ok(Led {
        rounds: more,
        net: higher,
        cert: next,
    })
}

/// A round more.
fn push_round(rounds: &mut Vec<Round>, cert: Cert, rises: Vec<Rise>) -> Result<(), AllocError>
    ensures { OnOk result (rounds.new.items ≡ rounds.old.items ++ record { cert = cert; rises = rises } ∷ []) }
{
    rounds.push(Round { cert, rises })?;
    Ok(())
}
