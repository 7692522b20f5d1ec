//! What a fit asks for of the lines of a text.

ghost use Rattle.std.specs.Prelude.{◌≡◌, ◌≢◌, ◌≤◌, length, Ok, Err, IfErr, IfOk};
ghost use Rattle.std.specs.Option.{option_map};
ghost use Rattle.def_fit.specs.FitTasks.{asides_in, kept_in, wished_in};
ghost use Rattle.def_fit.specs.WishLines.{wishes_in};
ghost use Rattle.def_mesh.specs.Darts.{darts};
ghost use Rattle.def_patches.specs.Chosen.{AreKeptMarks};
ghost use Rattle.def_text.specs.declared.limits.TheConstants.{MAX_V_LINES};

use crate::marks::text_marks;
use def_fit::{Aim, Fit};
use def_marks::MarkFail;
use def_patches::Keep;
use qm_io::Lines;
use qm_marks::read_wishes;
use qm_stages::Meshed;
use std::alloc::Global;

/// What the lines of a text say beside its mesh: a mark for each dart, where marks are kept, and a wish for each, where
/// wishes are aimed at.
#[derive(Drop)]
pub struct Asides {
    pub kept: Option<Vec<bool>>,
    pub wishes: Vec<u32>,
}

/// What the lines of the text of a mesh say, as far as a fit asks for it, or their first refusal: `l` lines are looked
/// at first. Linear but for searches, which are logarithmic.
pub fn read_asides(
    alloc: Global,
    fit: &Fit,
    lines: &Lines,
    read: &Meshed,
) -> Result<Asides, MarkFail>
    requires { length read.now.pos ≤ MAX_V_LINES }
    ensures said { IfOk result (λ asides. asides_in fit.now lines.now read.now
        ≡ Ok (record { kept = option_map (λ marks. marks.items) asides.kept; wishes = asides.wishes.items })) }
    ensures inner { IfOk result (λ asides. AreKeptMarks read.now.faces
        (option_map (λ marks. marks.items) asides.kept)) }
    ensures each { IfOk result (λ asides. fit.now.aim ≡ Aim.Wishes
        → length asides.wishes.items ≡ darts read.now.faces) }
    ensures refused { IfErr result (λ fail. fail ≢ MarkFail.Memory → asides_in fit.now lines.now read.now ≡ Err fail) }
{
    let kept = read_kept(alloc, fit.keep, lines, read)?;
    let wishes = read_wished(alloc, &fit.aim, lines, read)?;
    Ok(Asides { kept, wishes })
}

/// The marks that are kept, or the first refusal of the lines that say them. Its cost is that of `text_marks`.
pub fn read_kept(
    alloc: Global,
    keep: Keep,
    lines: &Lines,
    read: &Meshed,
) -> Result<Option<Vec<bool>>, MarkFail>
    requires { length read.now.pos ≤ MAX_V_LINES }
    ensures kept { IfOk result (λ kept. kept_in keep lines.now read.now
        ≡ Ok (option_map (λ marks. marks.items) kept)) }
    ensures inner { IfOk result (λ kept. AreKeptMarks read.now.faces (option_map (λ marks. marks.items) kept)) }
    ensures refused { IfErr result (λ fail. fail ≢ MarkFail.Memory → kept_in keep lines.now read.now ≡ Err fail) }
{
    match keep {
        Keep::Nothing => Ok(None),
        Keep::Lines => {
            let marks = text_marks(alloc, lines, read)?;
            Ok(Some(marks))
        }
    }
}

/// The wishes that are aimed at, one for each dart.
fn read_wished(alloc: Global, aim: &Aim, lines: &Lines, read: &Meshed) -> Result<Vec<u32>, MarkFail>
    requires { length read.now.pos ≤ MAX_V_LINES }
    ensures wishes { IfOk result (λ wishes. wished_in aim.now lines.now read.now ≡ Ok wishes.items) }
    ensures each { IfOk result (λ wishes. aim.now ≡ Aim.Wishes → length wishes.items ≡ darts read.now.faces) }
    ensures refused { IfErr result (λ fail. fail ≢ MarkFail.Memory
        → wished_in aim.now lines.now read.now ≡ Err fail) }
{
    match *aim {
        Aim::Wishes => text_wishes(alloc, lines, read),
        _ => Ok(Vec::new(alloc)),
    }
}

/// A wish for each dart of the mesh of a text: that of the last `#w` line for its edge, or one whole edge. Else the
/// first refusal of these lines.
fn text_wishes(alloc: Global, lines: &Lines, read: &Meshed) -> Result<Vec<u32>, MarkFail>
    requires { length read.now.pos ≤ MAX_V_LINES }
    ensures wishes { IfOk result (λ wishes. wishes_in lines.now read.now ≡ Ok wishes.items) }
    ensures each { IfOk result (λ wishes. length wishes.items ≡ darts read.now.faces) }
    ensures refused { IfErr result (λ fail. fail ≢ MarkFail.Memory → wishes_in lines.now read.now ≡ Err fail) }
{
    let soup = read.soup();
    let _names = &soup.names;
    read_wishes(alloc, lines, lines.count(), soup, read.mesh())
}
