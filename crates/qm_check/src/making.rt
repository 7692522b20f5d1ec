//! What the text of each command is judged by.

ghost use Rattle.std.specs.Prelude.{◌≡◌, length, IfErr, IfOk, OnOk};
ghost use Rattle.def_fit.specs.Aims.{aimed, fit_settings, AreAimedNear, IsFit};
ghost use Rattle.def_flow.specs.Network.{network};
ghost use Rattle.def_mesh.specs.Darts.{darts};
ghost use Rattle.def_remesh.specs.Keeping.{IsNetFor};
ghost use Rattle.def_run.specs.declared.command.Command.{Command as AnyCommand};
ghost use Rattle.qm_check.specs.Least.{HasNoNet, IsLeastLine};
ghost use Rattle.qm_check.specs.Making.{IsReadyFor, IsUnmade};
ghost use Rattle.qm_check.specs.Ready.{IsOld};

use crate::asides::old_asides;
use crate::least::{Least, terms_of};
use crate::parts::SmallText;
use crate::ready::{Frame, Ready, ended};
use def_fit::{Aim, Fit};
use def_flow::Net;
use def_metric::MetricFail;
use def_run::CheckFail;
use qm_cut::chosen_layout;
use qm_metric::{net_for, shares_of};
use qm_stages::{CutMesh, Meshed};
use std::alloc::Global;

/// What the text of a command with this head line is judged by, behind the text of a mesh: the cut, the head line and
/// the network of its task.
#[tactic(auto, using(crate::proofs::Points::point_of))]
pub(crate) fn ready_for(
    alloc: Global,
    text: &SmallText,
    line: &[u8],
    old: Meshed,
    least: &Least,
) -> Result<Ready, CheckFail>
    requires old { IsOld text.now.bytes.now old }
    requires line { (command : AnyCommand) × IsLeastLine command line.now least.now }
    ensures ready { (command : AnyCommand) → IsLeastLine command line.now least.now
        → IfOk result (IsReadyFor command text.now.bytes.now) }
    ensures soup { IfOk result (λ ready. ready.cut.soup ≡ old) }
    ensures unmade { (command : AnyCommand) → IsLeastLine command line.now least.now
        → IfErr result (IsUnmade command text.now.bytes.now) }
{
    let asides = old_asides(alloc, text, &old, &least.fit)?;
    let kept = asides.kept.as_deref();
    let layout = chosen_layout(alloc, old.mesh(), kept, least.fit.patches)?;
    let cut = CutMesh::new(old, layout);
    let net = net_near(alloc, &cut, &least.fit, &asides.wishes)?;
    let shares = shares_of(alloc, &cut, &least.fit, &asides.wishes)?;
    let head = ended(alloc, line)?;
    let frame = Frame {
        terms: terms_of(least),
        head,
        marks: asides.kept,
        shares,
    };
    Ok(Ready { cut, frame, net })
}

/// The network of a layout for a fit, or why it has none.
fn net_near(alloc: Global, cut: &CutMesh, fit: &Fit, wishes: &[u32]) -> Result<Net, CheckFail>
    requires fit { IsFit fit.now }
    requires wishes { fit.now.aim ≡ Aim.Wishes → length wishes.now ≡ darts cut.now.soup.faces }
    ensures net { IfOk result (λ net. IsNetFor (aimed fit.now.aim cut.now.soup wishes.now) cut.now.layout
        (fit_settings fit.now) (network net)) }
    ensures near { OnOk result
        (AreAimedNear fit.now.aim (aimed fit.now.aim cut.now.soup wishes.now) cut.now.layout) }
    ensures none { IfErr result (HasNoNet fit.now.aim (aimed fit.now.aim cut.now.soup wishes.now) cut.now.layout
        (fit_settings fit.now)) }
{
    match net_for(alloc, cut, fit, wishes) {
        Ok(net) => Ok(net),
        Err(MetricFail::Tangled { count }) => Err(CheckFail::Tangled { count }),
        Err(MetricFail::Far { sum }) => Err(CheckFail::Far { sum }),
        Err(MetricFail::Memory) => Err(CheckFail::Memory),
    }
}
