//! The shares of a fit: what is divided equally among the new edges of an arc.

ghost use Rattle.std.specs.Prelude.{◌≡◌, List, Bool, IfOk};
ghost use Rattle.def_cut.specs.FullCut.{IsFullCut};
ghost use Rattle.def_fit.specs.Shares.{aimed_shares, shares_of};
ghost use Rattle.def_layout.specs.FaceLayouts.{IsCutLayout};

use crate::lengths::cut_lengths;
use def_fit::{Aim, Fit, Spacing};
use def_remesh::DartShares;
use qm_stages::CutMesh;
use std::alloc::{AllocError, Global};

/// The shares of a fit for the edges of the darts of a mesh with a cut, where its new points are spaced by them. There
/// is a wish for each dart where these are what it aims at. Linear in the darts, and near linear in those of the cut,
/// as a root takes at most 64 steps.
pub fn shares_of(
    alloc: Global,
    cut: &CutMesh,
    fit: &Fit,
    wishes: &[u32],
) -> Result<Option<DartShares>, AllocError>
    ensures { (marks : List Bool) → IsFullCut cut.now.soup.faces marks
        → IsCutLayout cut.now.soup.faces marks cut.now.layout
        → IfOk result (λ shares. shares ≡ shares_of fit.now cut.now.soup wishes.now marks) }
{
    match fit.spacing {
        Spacing::Even => Ok(None),
        Spacing::Wished => {
            let shares = aimed_shares(alloc, cut, &fit.aim, wishes)?;
            Ok(Some(shares))
        }
    }
}

/// The shares for an aim.
fn aimed_shares(
    alloc: Global,
    cut: &CutMesh,
    aim: &Aim,
    wishes: &[u32],
) -> Result<DartShares, AllocError>
    ensures { (marks : List Bool) → IsFullCut cut.now.soup.faces marks
        → IsCutLayout cut.now.soup.faces marks cut.now.layout
        → IfOk result (λ shares. shares ≡ aimed_shares aim.now cut.now.soup wishes.now marks) }
{
    match aim {
        Aim::Scale { .. } => Ok(DartShares {
            shares: Vec::new(alloc),
        }),
        Aim::Edge { .. } => cut_lengths(alloc, cut),
        Aim::Wishes => wishes_as_shares(alloc, wishes),
    }
}

/// The wishes themselves.
fn wishes_as_shares(alloc: Global, wishes: &[u32]) -> Result<DartShares, AllocError>
    ensures { IfOk result (λ shares. shares ≡ wishes.now) }
{
    let mut shares = Vec::with_capacity(alloc, wishes.len())?;
    for wish in wishes {
        shares.push(u64::from(*wish))?;
    }
    Ok(DartShares { shares })
}
