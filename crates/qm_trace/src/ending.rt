//! What the motion leaves when no rider runs: the marks of the graph, and what became of each rider.

ghost use Rattle.std.specs.Prelude.{◌≡◌, ◌<◌, ◌*◌, ◌||◌, ◌≤◌, not, is_some, ℕ, [], IsSome, length, map};
ghost use Rattle.std.specs.Vec.{vec_capacity};
ghost use Rattle.def_cut.specs.FullCut.{is_on};
ghost use Rattle.def_cut.specs.Traced.{AreRiders, IsRiderOf};
ghost use Rattle.def_mesh.specs.Darts.{all_darts, darts, twin_of};
ghost use Rattle.qm_trace.specs.Tables.{HaveStopped, closed_at, is_closed_at};

use def_cut::{Moving, Rider};
use qm_mesh::Mesh;

/// The marks of the graph, by those of the covered darts. Linear in the darts.
#[tactic(auto, using(crate::proofs::Ends::marks_are, std::proofs::lemmas::List::with_items_is))]
pub(crate) fn close(mesh: &Mesh, mut covered: Vec<bool>) -> Vec<bool>
    requires { length covered.items ≡ darts mesh.now }
    ensures { result.items ≡ map (is_closed_at mesh.now covered.items) (all_darts mesh.now) }
{
    close_each(mesh, &mut covered);
    covered
}

/// Marks the boundary too.
fn close_each(mesh: &Mesh, covered: &mut [bool])
    requires { length covered.old ≡ darts mesh.now }
    ensures { (d : ℕ) → d < darts mesh.now
        → is_on covered.new d ≡ (is_on covered.old d || not (is_some (twin_of mesh.now d))) }
{
    for d in 0..4 * mesh.faces().len() as u32 {
        close_edge(mesh, d, covered);
    }
}

/// Marks d where its edge has one dart.
fn close_edge(mesh: &Mesh, d: u32, covered: &mut [bool])
    requires dart { d < darts mesh.now }
    requires long { length covered.old ≡ darts mesh.now }
    ensures { covered.new ≡ closed_at (twin_of mesh.now d) covered.old d }
{
    if mesh.twin(d).is_none() {
        covered[d as usize] = true;
    }
}

/// Puts down what became of each rider.
pub(crate) fn tell_riders(mesh: &Mesh, starts: &[u32], riders: &[Moving], told: &mut Vec<Rider>)
    requires few { length starts.now ≤ darts mesh.now }
    requires each { length riders.now ≡ length starts.now }
    requires stopped { HaveStopped riders.now }
    requires empty { told.old.items ≡ [] }
    requires room { length starts.now ≤ vec_capacity told.old }
    ensures { AreRiders riders.now starts.now told.new.items }
{
    let _known = mesh.faces();
    for (r, start) in starts.iter().enumerate() {
        told.push(rider_of(*start, riders[r])).unwrap();
    }
}

/// What became of a rider that has stopped.
fn rider_of(start: u32, moving: Moving) -> Rider
    requires { IsSome moving.stop }
    ensures { IsRiderOf moving start result }
{
    Rider {
        start,
        rides: moving.rides,
        stop: moving.stop.unwrap(),
    }
}
