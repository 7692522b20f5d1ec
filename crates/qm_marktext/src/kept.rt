//! The lines of marked arcs over a remesh.

ghost use Rattle.std.specs.Prelude.{◌≡◌, option_copied, IfOk};
ghost use Rattle.def_certtext.specs.CertLines.{certificates_of, used};
ghost use Rattle.def_fit.specs.FitTasks.{kept_text};
ghost use Rattle.def_marks.specs.MarkedText.{marked_text};
ghost use Rattle.def_remesh.specs.Keeping.{IsKept};
ghost use Rattle.def_remesh.specs.NewPoints.{lengths_in};
ghost use Rattle.def_remesh.specs.Tasks.{Wish};

use crate::Memory;
use crate::lines::marked_lines;
use qm_stages::CutMesh;
use qm_write::Remesh;
use std::alloc::Global;

/// The lines of marked arcs over the new mesh that a remesh keeps. Its cost is that of `marked_lines`.
pub fn kept_lines(
    alloc: Global,
    marks: &[bool],
    cut: &CutMesh,
    remesh: &Remesh,
) -> Result<Vec<u8>, Memory>
    requires { (wish : Wish) × IsKept wish cut.now.layout remesh.now.terms.settings remesh.now.terms.rising
        (certificates_of remesh.now.certs) remesh.now.numbering }
    ensures { IfOk result (λ text. text.items ≡ marked_text marks.now cut.now.layout
        (lengths_in (used (certificates_of remesh.now.certs)).x)) }
{
    let _count = remesh.numbering.vertices();
    marked_lines(alloc, marks, cut.layout(), &remesh.used_cert().x)
}

/// The same, or no lines where no marks are kept.
pub fn lines_between(
    alloc: Global,
    kept: Option<&[bool]>,
    cut: &CutMesh,
    remesh: &Remesh,
) -> Result<Vec<u8>, Memory>
    requires { (wish : Wish) × IsKept wish cut.now.layout remesh.now.terms.settings remesh.now.terms.rising
        (certificates_of remesh.now.certs) remesh.now.numbering }
    ensures { IfOk result (λ text. text.items ≡ kept_text (option_copied kept.entry) cut.now.layout
        (lengths_in (used (certificates_of remesh.now.certs)).x)) }
{
    match kept {
        Some(marks) => kept_lines(alloc, marks, cut, remesh),
        None => Ok(Vec::new(alloc)),
    }
}
