//! The network of a layout for what new lengths aim at.

ghost use Rattle.std.specs.Prelude.{◌≡◌, ℕ, length, IfOk, IfErr, OnOk};
ghost use Rattle.def_certtext.specs.Risings.{rounds_if};
ghost use Rattle.def_fit.specs.Aims.{aimed, fit_settings, AreAimedNear, IsFit, IsFitFail};
ghost use Rattle.def_flow.specs.Admissible.{IsEven};
ghost use Rattle.def_flow.specs.Network.{network};
ghost use Rattle.def_mesh.specs.Darts.{darts};
ghost use Rattle.def_metric.specs.Fails.{size_fail_of};
ghost use Rattle.def_remesh.specs.Keeping.{IsNetFor};

use crate::aims::fit_settings;
use crate::sums::sums_of;
use crate::wishes::with_wishes;
use def_fit::{Aim, Fit};
use def_flow::Net;
use def_metric::{MAX_TARGETS, MetricFail};
use qm_layoutnet::net_of;
use qm_stages::CutMesh;
use std::alloc::Global;

/// The network of a layout for what a fit aims at. There is a wish for each dart where these are what it aims at. Near
/// linear in the darts of the arcs, as a root takes at most 64 steps.
pub fn net_for(alloc: Global, cut: &CutMesh, fit: &Fit, wishes: &[u32]) -> Result<Net, MetricFail>
    requires fit { IsFit fit.now }
    requires wishes { fit.now.aim ≡ Aim.Wishes → length wishes.now ≡ darts cut.now.soup.faces }
    ensures net { IfOk result (λ net. IsNetFor (aimed fit.now.aim cut.now.soup wishes.now) cut.now.layout
        (fit_settings fit.now) (network net)) }
    ensures near { OnOk result
        (AreAimedNear fit.now.aim (aimed fit.now.aim cut.now.soup wishes.now) cut.now.layout) }
    ensures even { (p q : ℕ) → fit.now.aim ≡ Aim.Scale p q → IfOk result (λ net. IsEven (network net)) }
    ensures refused { IfErr result (λ fail. IsFitFail fit.now.aim (aimed fit.now.aim cut.now.soup wishes.now)
        cut.now.layout (fit_settings fit.now) (rounds_if fit.now.auto) (size_fail_of fail)) }
{
    let layout = cut.layout();
    let net = net_of(alloc, layout, &fit_settings(fit))?;
    let sums = sums_of(alloc, cut, &fit.aim, wishes, &layout.arcs)?;
    if sums.sum > u128::from(MAX_TARGETS) {
        return Err(MetricFail::Far { sum: sums.sum });
    }
    Ok(with_wishes(net, &sums.wishes))
}
