//! Least lengths for a layout, with whatever they aim at.

ghost use Rattle.std.specs.Prelude.{◌≡◌, ◌<◌, ◌≤◌, ℕ, length, IfOk, IfErr, OnOk};
ghost use Rattle.def_certtext.specs.CertLines.{certificates_of};
ghost use Rattle.def_certtext.specs.Risings.{rounds_if};
ghost use Rattle.def_fit.specs.Aims.{aimed, fit_settings, AreAimedNear, IsFit, IsFitFail};
ghost use Rattle.def_flow.specs.Accepted.{certificate};
ghost use Rattle.def_flow.specs.Admissible.{IsEven};
ghost use Rattle.def_flow.specs.Descent.{IsSolution};
ghost use Rattle.def_flow.specs.Network.{arc_at, network};
ghost use Rattle.def_layout.specs.Lengths.{Lengths};
ghost use Rattle.def_mesh.specs.Darts.{darts};
ghost use Rattle.def_remesh.specs.Keeping.{IsKept, IsNetWith};
ghost use Rattle.def_remesh.specs.Placings.{IsMeshLayout};
ghost use Rattle.def_remesh.specs.Tasks.{Wish};
ghost use Rattle.qm_remesh.specs.Rounds.{greatest_floor};

use crate::keeping::keep_solved;
use crate::rounds::keep_rounds;
use def_certtext::{Rising, Terms};
use def_fit::{Aim, Fit};
use def_flow::{Cert, MAX_FLOOR, Net};
use def_metric::SizeFail;
use qm_metric::{fit_settings, net_for, old_start};
use qm_net::LooseNet;
use qm_solve::{solve, solve_near};
use qm_stages::CutMesh;
use qm_write::Remesh;
use std::alloc::{AllocError, Global};

/// Finds lengths that come nearest to what a fit aims at, and numbers the new mesh that they give. There is a wish for
/// each dart where these are what it aims at.
///
/// The time is that of `solve` for a scale and else that of `solve_near` and, beyond it, near linear in the sizes of
/// the old and the new mesh.
pub fn keep_fit(alloc: Global, cut: &CutMesh, fit: &Fit, wishes: &[u32]) -> Result<Remesh, SizeFail>
    requires fit { IsFit fit.now }
    requires wishes { fit.now.aim ≡ Aim.Wishes → length wishes.now ≡ darts cut.now.soup.faces }
    ensures kept { IfOk result (λ kept. IsKept (aimed fit.now.aim cut.now.soup wishes.now) cut.now.layout
        (fit_settings fit.now) (rounds_if fit.now.auto) (certificates_of kept.certs) kept.numbering) }
    ensures terms { IfOk result (λ kept.
        kept.terms ≡ record { settings = fit_settings fit.now; rising = rounds_if fit.now.auto }) }
    ensures laid { IsMeshLayout cut.now.soup.faces cut.now.layout }
    ensures near { OnOk result
        (AreAimedNear fit.now.aim (aimed fit.now.aim cut.now.soup wishes.now) cut.now.layout) }
    ensures refused { IfErr result
        (IsFitFail fit.now.aim (aimed fit.now.aim cut.now.soup wishes.now) cut.now.layout (fit_settings fit.now)
        (rounds_if fit.now.auto)) }
{
    let _laid = cut.layout();
    let net = net_for(alloc, cut, fit, wishes)?;
    let first = solve_fit(alloc, cut, fit, &net)?;
    if fit.auto {
        let kept = keep_rounds(alloc, cut, fit, net, first)?;
        return Ok(kept);
    }
    let terms = Terms {
        settings: fit_settings(fit),
        rising: Rising::Never,
    };
    let kept = keep_solved(alloc, cut, terms, net, first)?;
    Ok(kept)
}

/// A least list of lengths of the network of a fit, with its certificate, whichever of its floors rose.
pub(crate) fn solve_fit(
    alloc: Global,
    cut: &CutMesh,
    fit: &Fit,
    net: &Net,
) -> Result<Cert, AllocError>
    requires fit { IsFit fit.now }
    requires net { (wish : Wish) × (floors : Lengths)
        × IsNetWith wish cut.now.layout (fit_settings fit.now) floors (network net.now)
        × AreAimedNear fit.now.aim wish cut.now.layout }
    requires floors { (k : ℕ) → k < length net.now.arcs.items
        → (arc_at net.now.arcs.items k).floor ≤ greatest_floor fit.now }
    requires even { (p q : ℕ) → fit.now.aim ≡ Aim.Scale p q → IsEven (network net.now) }
    ensures { IfOk result (λ cert. IsSolution (network net.now) (certificate cert)) }
{
    match fit.aim {
        Aim::Scale { .. } => solve(alloc, net),
        _ => {
            let start = old_start(alloc, cut.layout(), greatest_floor(fit))?;
            let loose = LooseNet { whole: net };
            solve_near(alloc, &loose, start)
        }
    }
}

/// The greatest floor that an arc may get.
fn greatest_floor(fit: &Fit) -> u32
    ensures { result ≡ greatest_floor fit.now }
{
    if fit.auto { MAX_FLOOR } else { fit.floor }
}
