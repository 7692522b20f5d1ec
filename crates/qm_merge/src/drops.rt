//! An arc leaves a cut.

ghost use Rattle.std.specs.Prelude.{◌≡◌, ◌≢◌, ◌<◌, ℕ, false, length, IsSome, Some};
ghost use Rattle.def_mesh.specs.Darts.{darts, next_of, twin_of};
ghost use Rattle.def_mesh.specs.HalfEdges.{half_edges};
ghost use Rattle.def_cut.specs.FullCut.{is_on};
ghost use Rattle.def_cut.specs.Steps.{step_east};
ghost use Rattle.def_merge.specs.Joins.{IsWithout};
ghost use Rattle.def_known.specs.Cutting.{IsCutting};
ghost use Rattle.qm_merge.specs.Seams.{IsSeam};

use crate::seams::Seam;
use qm_mesh::Mesh;

/// Takes the edges of the arc from s out of the cut. Linear in the arc.
pub(crate) fn drop_seam(mesh: &Mesh, cut: &mut [bool], s: u32, seam: Seam)
    requires cutting { IsCutting mesh.now cut.old }
    requires seam { IsSeam (half_edges mesh.now) (is_on cut.old) s seam }
    ensures long { length cut.new ≡ length cut.old }
    ensures without { IsWithout (half_edges mesh.now) (is_on cut.old) (is_on cut.new) s seam.far seam.long }
{
    let mut d = s;
    for k in 0..seam.long {
        if k > 0 {
            d = east(mesh, d);
        }
        drop_edge(mesh, cut, d);
    }
}

/// The dart straight on from d, over an edge with two darts.
fn east(mesh: &Mesh, d: u32) -> u32
    requires dart { d < darts mesh.now }
    requires paired { IsSome (twin_of mesh.now (next_of d)) }
    ensures value { result ≡ step_east (half_edges mesh.now) d }
    ensures dart { result < darts mesh.now }
{
    let across = mesh.twin(mesh.next(d)).unwrap();
    mesh.next(across)
}

/// Takes one edge with two darts out of the cut.
fn drop_edge(mesh: &Mesh, cut: &mut [bool], d: u32)
    requires long { length cut.old ≡ darts mesh.now }
    requires dart { d < darts mesh.now }
    requires paired { IsSome (twin_of mesh.now d) }
    ensures long { length cut.new ≡ length cut.old }
    ensures gone { is_on cut.new d ≡ false }
    ensures twin { (e : ℕ) → twin_of mesh.now d ≡ Some e → is_on cut.new e ≡ false }
    ensures less { (e : ℕ) → is_on cut.old e ≡ false → is_on cut.new e ≡ false }
    ensures kept { (e : ℕ) → e ≢ d → twin_of mesh.now d ≢ Some e → is_on cut.new e ≡ is_on cut.old e }
{
    cut[d as usize] = false;
    cut[mesh.twin(d).unwrap() as usize] = false;
}
