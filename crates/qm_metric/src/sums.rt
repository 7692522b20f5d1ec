//! The lengths that are wished for the arcs of a layout, and their sum.

ghost use Rattle.std.specs.Prelude.{◌≡◌, ◌<◌, ◌≤◌, ◌-◌, ◌^◌, ℕ, length, map, min, slice_index_or, IfOk};
ghost use Rattle.std.specs.List.{All};
ghost use Rattle.def_fit.specs.Aims.{IsAim};
ghost use Rattle.def_layout.specs.declared.tmesh.TArc.{TArc as Run};
ghost use Rattle.def_math.specs.Counts.{count};
ghost use Rattle.def_mesh.specs.Darts.{darts};
ghost use Rattle.def_metric.specs.declared.limits.TheConstants.{EDGE_PARTS};
ghost use Rattle.qm_metric.specs.Wishes.{wish_along};

use crate::measures::{Ruler, target_of};
use def_fit::Aim;
use def_layout::TArc;
use qm_stages::CutMesh;
use std::alloc::{AllocError, Global};

/// The wishes for arcs, each as far as the type goes, and the sum of them all.
#[derive(Debug, Drop)]
pub(crate) struct Sums {
    pub(crate) wishes: Vec<u32>,
    pub(crate) sum: u128,
}

/// The wishes for these arcs of the layout. Linear in their darts.
pub(crate) fn sums_of(
    alloc: Global,
    cut: &CutMesh,
    aim: &Aim,
    wishes: &[u32],
    runs: &[TArc],
) -> Result<Sums, AllocError>
    requires aim { IsAim aim.now }
    requires wishes { aim.now ≡ Aim.Wishes → length wishes.now ≡ darts cut.now.soup.faces }
    requires few { length runs.now ≤ 2 ^ 23 }
    requires short { All (λ (run : Run). length run.darts.items < 2 ^ 32) runs.now }
    requires inside { All (λ (run : Run). All (λ d. d < darts cut.now.soup.faces) run.darts.items) runs.now }
    ensures sum { IfOk result (λ all. all.sum
        ≡ count (λ (run : Run). wish_along aim.now cut.now.soup wishes.now run.darts.items) runs.now) }
    ensures wishes { IfOk result (λ all. all.wishes.items
        ≡ map (λ (run : Run). min (wish_along aim.now cut.now.soup wishes.now run.darts.items) (2 ^ 32 - 1)) runs.now) }
{
    let mut found = Vec::with_capacity(alloc, runs.len())?;
    let mut sum = 0u128;
    for run in runs {
        let wish = wish_along(cut, aim, wishes, &run.darts);
        found.push(wish.min(u128::from(u32::MAX)) as u32)?;
        sum += wish;
    }
    Ok(Sums { wishes: found, sum })
}

/// The wish for an arc with these darts.
fn wish_along(cut: &CutMesh, aim: &Aim, wishes: &[u32], path: &[u32]) -> u128
    requires aim { IsAim aim.now }
    requires wishes { aim.now ≡ Aim.Wishes → length wishes.now ≡ darts cut.now.soup.faces }
    requires short { length path.now < 2 ^ 32 }
    requires inside { All (λ d. d < darts cut.now.soup.faces) path.now }
    ensures value { result ≡ wish_along aim.now cut.now.soup wishes.now path.now }
    ensures small { result < 2 ^ 104 }
{
    match aim {
        Aim::Scale { .. } => path.len() as u128,
        Aim::Edge { edge } => {
            let ruler = Ruler {
                cut,
                edge: edge.n.unsigned_abs(),
            };
            target_of(&ruler, path)
        }
        Aim::Wishes => sum_along(wishes, path),
    }
}

/// The sum of these wishes along a path.
fn sum_along(wishes: &[u32], path: &[u32]) -> u128
    requires short { length path.now < 2 ^ 32 }
    requires inside { All (λ d. d < length wishes.now) path.now }
    ensures value { result ≡ count (λ d. slice_index_or wishes.now d EDGE_PARTS) path.now }
    ensures small { result < 2 ^ 64 }
{
    let mut sum = 0u128;
    for dart in path {
        sum += u128::from(wishes[*dart as usize]);
    }
    sum
}
