//! Least lengths for a layout, for the floor that was given or for floor 3 where it must.

ghost use Rattle.std.specs.Prelude.{◌≡◌, ◌≢◌, IfOk, IfErr};
ghost use Rattle.def_certtext.specs.CertLines.{certificates_of};
ghost use Rattle.def_certtext.specs.Risings.{may_rise};
ghost use Rattle.def_certtext.specs.Settings.{AreInRange};
ghost use Rattle.def_certtext.specs.declared.certs.Rising.TheVariants.{Rounds, Third};
ghost use Rattle.def_flow.specs.Accepted.{certificate};
ghost use Rattle.def_flow.specs.Admissible.{IsEven};
ghost use Rattle.def_flow.specs.Descent.{IsSolution};
ghost use Rattle.def_flow.specs.Network.{network};
ghost use Rattle.def_remesh.specs.Keeping.{IsKept, IsNetFor};
ghost use Rattle.def_remesh.specs.Placings.{IsMeshLayout};
ghost use Rattle.def_remesh.specs.Refusals.{IsLayoutFail};
ghost use Rattle.def_remesh.specs.Remeshed.{AreCoarse, AreDoubled};
ghost use Rattle.def_remesh.specs.Tasks.{old_lengths, Wish};

use def_certtext::{Certs, Rising, Terms};
use def_flow::{Cert, MAX_FLOOR, Net, Settings};
use def_layoutnet::NetFail;
use def_remesh::{Kept, LayoutFail, StitchFail};
use qm_layoutnet::{net_of, with_floor};
use qm_solve::solve;
use qm_stages::{CutMesh, plan_over};
use qm_write::Remesh;
use std::alloc::Global;

/// Finds least lengths for a layout, and numbers the new mesh that they give: those for the given floors, or, where
/// these double an edge and floors rise to 3 at once, those for floor 3. They do not rise in rounds.
///
/// The time is that of `solve` and, beyond it, near linear in the sizes of the old and the new mesh.
pub fn keep(alloc: Global, cut: &CutMesh, terms: Terms) -> Result<Remesh, LayoutFail>
    requires known { terms.rising ≢ Rounds }
    requires settings { AreInRange terms.settings (may_rise terms.rising) }
    ensures kept { IfOk result (λ kept. IsKept old_lengths cut.now.layout terms.settings terms.rising
        (certificates_of kept.certs) kept.numbering) }
    ensures terms { IfOk result (λ kept. kept.terms ≡ terms) }
    ensures laid { IsMeshLayout cut.now.soup.faces cut.now.layout }
    ensures refused { IfErr result (IsLayoutFail old_lengths cut.now.layout terms.settings terms.rising) }
{
    let net = match net_of(alloc, cut.layout(), &terms.settings) {
        Ok(net) => net,
        Err(NetFail::Tangled { count }) => return Err(LayoutFail::Tangled { count }),
        Err(NetFail::Memory) => return Err(LayoutFail::Memory),
    };
    let first = solve(alloc, &net)?;
    keep_solved(alloc, cut, terms, net, first)
}

/// The same of a network of the layout with any wished lengths, which this certificate solves. Where floors rise the
/// network is even, so that it can be solved for floor 3.
pub fn keep_solved(
    alloc: Global,
    cut: &CutMesh,
    terms: Terms,
    net: Net,
    first: Cert,
) -> Result<Remesh, LayoutFail>
    requires known { terms.rising ≢ Rounds }
    requires net { (wish : Wish) × IsNetFor wish cut.now.layout terms.settings (network net) }
    requires solved { IsSolution (network net) (certificate first) }
    requires even { terms.rising ≡ Third → IsEven (network net) }
    ensures kept { (wish : Wish) → IsNetFor wish cut.now.layout terms.settings (network net)
        → IfOk result (λ kept. IsKept wish cut.now.layout terms.settings terms.rising
        (certificates_of kept.certs) kept.numbering) }
    ensures terms { IfOk result (λ kept. kept.terms ≡ terms) }
    ensures refused { (wish : Wish) → IsNetFor wish cut.now.layout terms.settings (network net)
        → IfErr result (IsLayoutFail wish cut.now.layout terms.settings terms.rising) }
{
    match plan_over(alloc, cut, &first.x) {
        Ok(numbering) => Ok(Remesh {
            terms,
            certs: Certs::Alone { cert: first },
            numbering,
        }),
        Err(StitchFail::TooFine { faces }) => Err(LayoutFail::TooFine {
            faces,
            kept: Kept::Least {
                certs: Certs::Alone { cert: first },
            },
        }),
        Err(StitchFail::Doubled { u, v }) => match terms.rising {
            Rising::Third => raise(alloc, cut, terms.settings, net, first),
            _ => Err(LayoutFail::Doubled { u, v, cert: first }),
        },
        Err(StitchFail::Memory) => Err(LayoutFail::Memory),
    }
}

/// The same where the lengths for the given floors double an edge: those for floor 3 double none.
fn raise(
    alloc: Global,
    cut: &CutMesh,
    settings: Settings,
    net: Net,
    first: Cert,
) -> Result<Remesh, LayoutFail>
    requires net { (wish : Wish) × IsNetFor wish cut.now.layout settings (network net) }
    requires solved { IsSolution (network net) (certificate first) }
    requires even { IsEven (network net) }
    requires coarse { AreCoarse cut.now.layout first.x.items }
    requires doubled { AreDoubled cut.now.layout first.x.items }
    ensures kept { (wish : Wish) → IsNetFor wish cut.now.layout settings (network net)
        → IfOk result (λ kept. IsKept wish cut.now.layout settings Third
        (certificates_of kept.certs) kept.numbering) }
    ensures terms { IfOk result (λ kept. kept.terms ≡ record { settings = settings; rising = Third }) }
    ensures refused { (wish : Wish) → IsNetFor wish cut.now.layout settings (network net)
        → IfErr result (IsLayoutFail wish cut.now.layout settings Third) }
{
    let raised = with_floor(net, MAX_FLOOR);
    let cert = solve(alloc, &raised)?;
    match plan_over(alloc, cut, &cert.x) {
        Ok(numbering) => Ok(Remesh {
            terms: Terms {
                settings,
                rising: Rising::Third,
            },
            certs: Certs::Raised { first, cert },
            numbering,
        }),
        Err(StitchFail::TooFine { faces }) => Err(LayoutFail::TooFine {
            faces,
            kept: Kept::Least {
                certs: Certs::Raised { first, cert },
            },
        }),
        Err(StitchFail::Doubled { .. }) => unreachable!(),
        Err(StitchFail::Memory) => Err(LayoutFail::Memory),
    }
}
