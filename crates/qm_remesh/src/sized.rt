//! Least lengths for a layout whose new edges are to have a given length.

ghost use Rattle.std.specs.Prelude.{◌≡◌, ◌≤◌, pos as whole, ◌≤ℤ◌, unsigned_abs, IfOk, IfErr, OnOk};
ghost use Rattle.def_certtext.specs.CertLines.{certificates_of};
ghost use Rattle.def_certtext.specs.declared.certs.Rising.TheVariants.{Never};
ghost use Rattle.def_flow.specs.declared.limits.TheConstants.{MAX_FLOOR};
ghost use Rattle.def_metric.specs.Fails.{AreNear, IsSizeFail};
ghost use Rattle.def_metric.specs.Targets.{edge_settings, targets};
ghost use Rattle.def_remesh.specs.Keeping.{IsKept};
ghost use Rattle.def_remesh.specs.Placings.{IsMeshLayout};

use crate::fitted::keep_fit;
use def_metric::SizeFail;
use def_text::Micro;
use qm_metric::edge_fit;
use qm_stages::CutMesh;
use qm_write::Remesh;
use std::alloc::Global;

/// Finds lengths by which the new edges come nearest to this length, and numbers the new mesh that they give.
///
/// The time is that of `solve_near` and, beyond it, near linear in the sizes of the old and the new mesh.
pub fn keep_sized(alloc: Global, cut: &CutMesh, edge: Micro, floor: u32) -> Result<Remesh, SizeFail>
    requires edge { whole 1 ≤ℤ edge }
    requires floor { (1 ≤ floor) × (floor ≤ MAX_FLOOR) }
    ensures kept { IfOk result (λ kept. IsKept
        (targets cut.now.soup.faces cut.now.soup.pos (unsigned_abs edge)) cut.now.layout (edge_settings floor) Never
        (certificates_of kept.certs) kept.numbering) }
    ensures terms { IfOk result (λ kept.
        kept.terms ≡ record { settings = edge_settings floor; rising = Never }) }
    ensures laid { IsMeshLayout cut.now.soup.faces cut.now.layout }
    ensures near { OnOk result
        (AreNear (targets cut.now.soup.faces cut.now.soup.pos (unsigned_abs edge)) cut.now.layout) }
    ensures refused { IfErr result
        (IsSizeFail (targets cut.now.soup.faces cut.now.soup.pos (unsigned_abs edge)) cut.now.layout floor) }
{
    keep_fit(alloc, cut, &edge_fit(edge, floor), &[])
}
