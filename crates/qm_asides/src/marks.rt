//! The edges that the `l` lines of a text mark.

ghost use Rattle.std.specs.Prelude.{◌≡◌, ◌≢◌, ◌≤◌, length, Ok, Err, IfErr, IfOk};
ghost use Rattle.def_feature.specs.Marks.{AreMarks};
ghost use Rattle.def_marks.specs.Lines.{marks_in};
ghost use Rattle.def_text.specs.declared.limits.TheConstants.{MAX_V_LINES};

use def_marks::MarkFail;
use qm_io::Lines;
use qm_marks::read_marks;
use qm_stages::Meshed;
use std::alloc::Global;

/// A mark for each dart of the mesh of a text: whether it has a twin, and an `l` line marks its edge. Else the first
/// refusal of these lines. Linear but for searches, which are logarithmic.
pub fn text_marks(alloc: Global, lines: &Lines, read: &Meshed) -> Result<Vec<bool>, MarkFail>
    requires { length read.now.pos ≤ MAX_V_LINES }
    ensures marks { IfOk result (λ marks. marks_in lines.now read.now ≡ Ok marks.items) }
    ensures inner { IfOk result (λ marks. AreMarks read.now.faces marks.items) }
    ensures refused { IfErr result (λ fail. fail ≢ MarkFail.Memory → marks_in lines.now read.now ≡ Err fail) }
{
    let soup = read.soup();
    let _names = &soup.names;
    read_marks(alloc, lines, 0, lines.count(), soup, read.mesh())
}
