//! The lengths in space of the edges of a cut, at their darts.

ghost use Rattle.std.specs.Prelude.{◌≡◌, ◌<◌, ◌^◌, List, Bool, length, map, IfOk};
ghost use Rattle.std.specs.List.{All};
ghost use Rattle.def_cut.specs.FullCut.{IsFullCut};
ghost use Rattle.def_fit.specs.Shares.{cut_length};
ghost use Rattle.def_layout.specs.FaceLayouts.{IsCutLayout};
ghost use Rattle.def_layout.specs.declared.tmesh.TArc.{TArc as Run};
ghost use Rattle.def_mesh.specs.Darts.{all_darts, darts};
ghost use Rattle.qm_metric.specs.Lengths.{with_arcs, with_edge, with_path};

use crate::measures::edge_length;
use def_layout::TArc;
use def_remesh::DartShares;
use qm_stages::CutMesh;
use std::alloc::{AllocError, Global};

/// The lengths of the edges of the cut, in millionths, and 0 at all other darts. Linear in the darts, and near linear
/// in those of the cut, as a root takes at most 64 steps.
pub(crate) fn cut_lengths(alloc: Global, cut: &CutMesh) -> Result<DartShares, AllocError>
    ensures { (marks : List Bool) → IsFullCut cut.now.soup.faces marks
        → IsCutLayout cut.now.soup.faces marks cut.now.layout
        → IfOk result (λ shares. shares ≡ map (cut_length cut.now.soup marks) (all_darts cut.now.soup.faces)) }
{
    let mesh = cut.mesh();
    let layout = cut.layout();
    let mut lengths = vec![in alloc; 0u64; 4 * mesh.faces().len()]?;
    put_arcs(&mut lengths, cut, &layout.arcs);
    Ok(DartShares { shares: lengths })
}

/// Puts the lengths of the edges along these arcs at their darts.
fn put_arcs(lengths: &mut [u64], cut: &CutMesh, arcs: &[TArc])
    requires table { length lengths.old ≡ darts cut.now.soup.faces }
    requires inside { All (λ (arc : Run). All (λ d. d < darts cut.now.soup.faces) arc.darts.items) arcs.now }
    requires small { All (λ share. share < 2 ^ 62) lengths.old }
    ensures value { lengths.new ≡ with_arcs cut.now.soup.faces cut.now.soup.pos lengths.old arcs.now }
    ensures small { All (λ share. share < 2 ^ 62) lengths.new }
{
    for arc in arcs {
        put_path(lengths, cut, &arc.darts);
    }
}

/// Puts the lengths of the edges along a path at their darts.
fn put_path(lengths: &mut [u64], cut: &CutMesh, path: &[u32])
    requires table { length lengths.old ≡ darts cut.now.soup.faces }
    requires inside { All (λ d. d < darts cut.now.soup.faces) path.now }
    requires small { All (λ share. share < 2 ^ 62) lengths.old }
    ensures value { lengths.new ≡ with_path cut.now.soup.faces cut.now.soup.pos lengths.old path.now }
    ensures small { All (λ share. share < 2 ^ 62) lengths.new }
{
    for dart in path {
        put_edge(lengths, cut, *dart);
    }
}

/// Puts the length of the edge of a dart at each of its darts.
fn put_edge(lengths: &mut [u64], cut: &CutMesh, dart: u32)
    requires table { length lengths.old ≡ darts cut.now.soup.faces }
    requires dart { dart < darts cut.now.soup.faces }
    requires small { All (λ share. share < 2 ^ 62) lengths.old }
    ensures value { lengths.new ≡ with_edge cut.now.soup.faces cut.now.soup.pos lengths.old dart }
    ensures small { All (λ share. share < 2 ^ 62) lengths.new }
{
    let mesh = cut.mesh();
    lengths[dart as usize] = edge_length(cut, dart);
    if let Some(twin) = mesh.twin(dart) {
        lengths[twin as usize] = edge_length(cut, twin);
    }
}
