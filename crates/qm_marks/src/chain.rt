//! Marking the edges along a chain of vertices.

ghost use Rattle.std.specs.Prelude.{◌≡◌, ◌≤◌, ◌<◌, ◌&&◌, ◌||◌, true, is_some, ℕ, length};
ghost use Rattle.def_cut.specs.FullCut.{is_on};
ghost use Rattle.def_marks.specs.Chains.{is_chain, is_edge, runs_along, runs_between};
ghost use Rattle.def_mesh.specs.Darts.{darts, from_of, to_of, twin_of};
ghost use Rattle.qm_marks.specs.Keys.{AreEnds};

use crate::ends::{FEW, edge_dart};
use qm_mesh::Mesh;

/// Marks the inner edges between successive vertices, or answers that some two are the ends of no edge.
pub(crate) fn mark_chain(mesh: &Mesh, keys: &[u128], chain: &[u32], marks: &mut [bool]) -> bool
    requires ends { AreEnds mesh.now FEW keys.now }
    requires some { 1 ≤ length chain.now }
    requires long { length marks.old ≡ darts mesh.now }
    ensures long { length marks.new ≡ darts mesh.now }
    ensures chain { result ≡ is_chain mesh.now chain.now }
    ensures marks { result ≡ true → (d : ℕ) → d < darts mesh.now → is_on marks.new d
        ≡ (is_on marks.old d || (is_some (twin_of mesh.now d) && runs_along mesh.now chain.now d)) }
{
    for k in 0..chain.len() - 1 {
        if !mark_edge(mesh, keys, chain[k], chain[k + 1], marks) {
            return false;
        }
    }
    true
}

/// Marks the edge between u and v, where it is inner, or answers that there is none.
fn mark_edge(mesh: &Mesh, keys: &[u128], u: u32, v: u32, marks: &mut [bool]) -> bool
    requires ends { AreEnds mesh.now FEW keys.now }
    requires long { length marks.old ≡ darts mesh.now }
    ensures long { length marks.new ≡ darts mesh.now }
    ensures edge { result ≡ is_edge mesh.now u v }
    ensures marks { result ≡ true → (d : ℕ) → d < darts mesh.now → is_on marks.new d
        ≡ (is_on marks.old d || (is_some (twin_of mesh.now d) && runs_between mesh.now u v d)) }
{
    match edge_dart(mesh, keys, u, v) {
        None => false,
        Some(d) => {
            mark(mesh, d, marks);
            true
        }
    }
}

/// Marks dart d and its twin, where it has one.
fn mark(mesh: &Mesh, d: u32, marks: &mut [bool])
    requires dart { d < darts mesh.now }
    requires long { length marks.old ≡ darts mesh.now }
    ensures long { length marks.new ≡ darts mesh.now }
    ensures marks { (x : ℕ) → x < darts mesh.now → is_on marks.new x ≡ (is_on marks.old x
        || (is_some (twin_of mesh.now x) && runs_between mesh.now (from_of mesh.now d) (to_of mesh.now d) x)) }
{
    let _known = mesh.faces();
    if let Some(t) = mesh.twin(d) {
        marks[d as usize] = true;
        marks[t as usize] = true;
    }
}
