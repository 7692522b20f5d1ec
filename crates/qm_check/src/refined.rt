//! A text of a refined mesh.

ghost use Rattle.std.specs.Prelude.{◌≡◌, ◌≤◌, IfErr, IfOk, OnOk};
ghost use Rattle.def_remesh.specs.CutSoups.{CutSoup};
ghost use Rattle.def_remesh.specs.Refined.{refined_text};
ghost use Rattle.def_run.specs.MapFails.{IsMapFail};
ghost use Rattle.def_run.specs.declared.command.Command.TheVariants.{Refine};
ghost use Rattle.def_run.specs.declared.command.TheConstants.{MAX_MULTIPLE};
ghost use Rattle.qm_check.specs.Checked.{IsDifference};
ghost use Rattle.qm_check.specs.Making.{HasMapOf, IsGivenTo};
ghost use Rattle.qm_check.specs.Multiples.{HasNoPoints, IsRefinedBy};

use crate::comparing::other_from;
use crate::parts::{Divided, SmallText};
use def_remesh::StitchFail;
use def_run::{CheckFail, Why};
use qm_cut::traced_layout;
use qm_output::Comparison;
use qm_refine::{put_refined, refined_points};
use qm_stages::{CutMesh, Meshed, Regridded};
use std::alloc::Global;

/// Judges what `refine` is to have written.
pub(crate) fn judge_refined(
    alloc: Global,
    text: &Divided,
    old: Meshed,
    by: u32,
) -> Result<Regridded, CheckFail>
    requires given { IsGivenTo text.now.bytes.now text.now.head.line old (Refine by) }
    ensures mapped { IfOk result (HasMapOf text.now.bytes.now) }
    ensures refused { IfErr result (IsMapFail text.now.bytes.now) }
{
    let layout = traced_layout(alloc, old.mesh())?;
    let new = points_by(alloc, by, CutMesh::new(old, layout))?;
    compare_refined(&text.written_text(), by, &new)?;
    Ok(new)
}

/// The mesh in which each edge is divided in so many.
fn points_by(alloc: Global, by: u32, cut: CutMesh) -> Result<Regridded, CheckFail>
    requires some { 1 ≤ by }
    requires few { by ≤ MAX_MULTIPLE }
    ensures refined { IfOk result (IsRefinedBy by cut) }
    ensures refused { IfErr result (HasNoPoints by cut.layout) }
{
    match refined_points(alloc, cut, by) {
        Ok(new) => Ok(new),
        Err(StitchFail::TooFine { faces }) => Err(CheckFail::NotAccepted {
            why: Why::TooFine { faces },
        }),
        Err(StitchFail::Doubled { .. }) => unreachable!(),
        Err(StitchFail::Memory) => Err(CheckFail::Memory),
    }
}

/// Compares the bytes with the text of the refined mesh, which is made piece by piece and not kept.
fn compare_refined(given: &SmallText, by: u32, new: &Regridded) -> Result<(), CheckFail>
    requires refined { (cut : CutSoup) × IsRefinedBy by cut new.now }
    ensures same { OnOk result (given.now.bytes.now ≡ refined_text by new.now.soup new.now.layout) }
    ensures other { IfErr result (IsDifference given.now.bytes.now (refined_text by new.now.soup new.now.layout)) }
{
    let mut comparison = Comparison::new(given.bytes);
    match put_refined(&mut comparison, by, new) {
        Ok(()) if comparison.is_over() => Ok(()),
        Ok(()) => Err(other_from(comparison.at())),
        Err(_) => Err(other_from(comparison.at())),
    }
}
