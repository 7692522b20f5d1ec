//! The runs of a mesh: each is walked once back from its least dart and once onward.

ghost use Rattle.std.specs.Prelude.{◌≡◌, ◌<◌, IfOk, IfSome, length};
ghost use Rattle.def_mesh.specs.Darts.{darts};
ghost use Rattle.def_mesh.specs.Vertices.{vertex_count};
ghost use Rattle.def_runs.specs.Runs.{AreRuns, follower as follower_of, is_passed as passes};
ghost use Rattle.qm_sing.specs.Walks.{IsBack, IsLine, leader as leader_of};

use crate::Memory;
use crate::flooding::NONE;
use def_runs::RunTable;
use qm_mesh::Mesh;
use std::alloc::Global;

/// How many darts a run has, and whether it is closed.
#[derive(Clone, Copy, Debug)]
pub(crate) struct Line {
    len: u32,
    closed: bool,
}

/// The runs of a mesh. Linear in the darts.
#[tactic(auto, using(crate::proofs::Longest::none_found))]
pub fn runs(alloc: Global, mesh: &Mesh) -> Result<RunTable, Memory>
    ensures { IfOk result (AreRuns mesh.now) }
{
    let darts = 4 * mesh.faces().len();
    let mut table = RunTable {
        run: vec![in alloc; NONE; darts]?,
        at: vec![in alloc; 0; darts]?,
        len: Vec::new(alloc),
        closed: Vec::new(alloc),
    };
    for d in 0..darts as u32 {
        if table.run[d as usize] == NONE {
            let first = first_of(mesh, d);
            let r = table.len.len() as u32;
            let line = number(mesh, first, r, &mut table.run, &mut table.at);
            table.len.push(line.len)?;
            table.closed.push(line.closed)?;
        }
    }
    Ok(table)
}

/// The first dart of the run of d; d itself where the run is closed.
fn first_of(mesh: &Mesh, d: u32) -> u32
    requires { d < darts mesh.now }
    ensures { IsBack mesh.now d result }
{
    let mut first = d;
    'back: for _ in 0..4 * mesh.faces().len() {
        match leader(mesh, first) {
            None => return first,
            Some(before) => {
                if before == d {
                    return d;
                }
                first = before;
            }
        }
    }
    unreachable!()
}

/// Gives its run and its place to each dart of the run that begins with `first`.
fn number(mesh: &Mesh, first: u32, r: u32, run: &mut [u32], at: &mut [u32]) -> Line
    requires first { first < darts mesh.now }
    requires run { length run.old ≡ darts mesh.now }
    requires at { length at.old ≡ darts mesh.now }
    ensures { IsLine mesh.now first r result run.old run.new at.old at.new }
{
    let mut dart = first;
    for place in 0..4 * mesh.faces().len() as u32 {
        run[dart as usize] = r;
        at[dart as usize] = place;
        match follower(mesh, dart) {
            None => {
                return Line {
                    len: place + 1,
                    closed: false,
                };
            }
            Some(next) => {
                if next == first {
                    return Line {
                        len: place + 1,
                        closed: true,
                    };
                }
                dart = next;
            }
        }
    }
    unreachable!()
}

/// The dart after d in its run, if runs go on over its end.
pub fn follower(mesh: &Mesh, d: u32) -> Option<u32>
    requires { d < darts mesh.now }
    ensures value { result ≡ follower_of mesh.now d }
    ensures dart { IfSome result (λ e. e < darts mesh.now) }
{
    if is_passed(mesh, mesh.to(d)) {
        mesh.straight(d)
    } else {
        None
    }
}

/// The dart before d in its run.
fn leader(mesh: &Mesh, d: u32) -> Option<u32>
    requires { d < darts mesh.now }
    ensures value { result ≡ leader_of mesh.now d }
    ensures dart { IfSome result (λ e. e < darts mesh.now) }
{
    if is_passed(mesh, mesh.from(d)) {
        let across = mesh.twin(mesh.prev(d))?;
        Some(mesh.prev(across))
    } else {
        None
    }
}

/// Whether runs go on over v: it is inner and regular. Linear in the faces at v.
pub fn is_passed(mesh: &Mesh, v: u32) -> bool
    requires { v < vertex_count mesh.now }
    ensures { result ≡ passes mesh.now v }
{
    mesh.faces_at(v) == 4 && mesh.is_inner(v)
}
