//! The vertices where closed runs break whose edges are all marked.

ghost use Rattle.std.specs.Prelude.{◌≡◌, ◌<◌, ◌&&◌, ◌||◌, ◌==◌, false, cond, min, ℕ, IfOk, length, slice_set};
ghost use Rattle.std.specs.List.{list_any};
ghost use Rattle.def_cut.specs.FullCut.{is_on};
ghost use Rattle.def_feature.specs.Marks.{is_least_in_ring};
ghost use Rattle.def_mesh.specs.Darts.{all_darts, darts, from_of};
ghost use Rattle.def_mesh.specs.Vertices.{vertex_count};
ghost use Rattle.qm_feature.specs.Rings.{AreLeast, AreWhole, is_home, least_at, run_at};

use crate::Memory;
use qm_mesh::Mesh;
use qm_sing::runs;
use std::alloc::Global;

/// Greater than each vertex.
const NONE: u32 = u32::MAX;

/// A mark for each vertex: whether it is the least of a closed run whose edges are all marked. Linear in the darts.
pub(crate) fn ring_vertices(alloc: Global, mesh: &Mesh, marks: &[bool]) -> Result<Vec<bool>, Memory>
    requires { length marks.now ≡ darts mesh.now }
    ensures long { IfOk result (λ rings. length rings.items ≡ vertex_count mesh.now) }
    ensures each { IfOk result (λ rings. (v : ℕ) → v < vertex_count mesh.now
        → is_on rings.items v ≡ is_least_in_ring mesh.now marks.now v) }
{
    let _known = mesh.faces();
    let table = runs(alloc, mesh)?;
    let mut whole = Vec::from_slice(alloc, &table.closed)?;
    drop_unmarked(marks, &table.run, &mut whole);
    let mut least = vec![in alloc; NONE; table.closed.len()]?;
    lower(mesh, &table.run, &mut least);
    let mut rings = vec![in alloc; false; mesh.vertices() as usize]?;
    let homes = Homes {
        mesh,
        run: &table.run,
        whole: &whole,
        least: &least,
    };
    homes.mark_rings(&mut rings);
    Ok(rings)
}

/// Drops the runs that have a dart without a mark.
fn drop_unmarked(marks: &[bool], run: &[u32], whole: &mut [bool])
    requires marks { length marks.now ≡ length run.now }
    requires runs { (d : ℕ) → d < length run.now → run_at run.now d < length whole.old }
    ensures { AreWhole marks.now run.now whole.old whole.new (length run.now) }
{
    for d in 0..run.len() {
        drop_if(marks[d], run[d], whole);
    }
}

/// Drops run r, unless its dart is marked.
fn drop_if(marked: bool, r: u32, whole: &mut [bool])
    requires { r < length whole.old }
    ensures { whole.new ≡ cond marked whole.old (slice_set whole.old r false) }
{
    if !marked {
        whole[r as usize] = false;
    }
}

/// The least vertex of each run.
fn lower(mesh: &Mesh, run: &[u32], least: &mut [u32])
    requires darts { length run.now ≡ darts mesh.now }
    requires runs { (d : ℕ) → d < length run.now → run_at run.now d < length least.old }
    requires none { (r : ℕ) → r < length least.old → least_at least.old r ≡ NONE }
    ensures { AreLeast mesh.now run.now least.new NONE (length run.now) }
{
    let _known = mesh.faces();
    for d in 0..run.len() {
        lower_one(run[d], mesh.from(d as u32), least);
    }
}

/// The least vertex of run r, which has v too.
fn lower_one(r: u32, v: u32, least: &mut [u32])
    requires { r < length least.old }
    ensures { least.new ≡ slice_set least.old r (min (least_at least.old r) v) }
{
    least[r as usize] = least[r as usize].min(v);
}

/// The runs of a mesh, those that are whole, and the least vertex of each.
#[derive(Clone, Copy)]
struct Homes<'a> {
    mesh: &'a Mesh,
    run: &'a [u32],
    whole: &'a [bool],
    least: &'a [u32],
    ghost long: { length run.now ≡ darts mesh.now },
    ghost wholes: { (d : ℕ) → d < length run.now → run_at run.now d < length whole.now },
    ghost leasts: { (d : ℕ) → d < length run.now → run_at run.now d < length least.now },
}

impl Homes<'_> {
    /// Marks the least vertices of whole runs.
    fn mark_rings(&self, rings: &mut [bool])
        requires { length rings.old ≡ vertex_count self.now.mesh.now }
        ensures { (v : ℕ) → is_on rings.new v
            ≡ (is_on rings.old v || list_any (λ d. (from_of self.now.mesh.now d == v)
            && is_home self.now.mesh.now self.now.run.now self.now.whole.now self.now.least.now d)
            (all_darts self.now.mesh.now)) }
    {
        for d in 0..4 * self.mesh.faces().len() as u32 {
            mark_if(self.mesh, d, self.is_first(d), rings);
        }
    }

    /// Whether d leaves the least vertex of its run, which is whole.
    fn is_first(&self, d: u32) -> bool
        requires { d < darts self.now.mesh.now }
        ensures { result ≡ is_home self.now.mesh.now self.now.run.now self.now.whole.now self.now.least.now d }
    {
        let r = self.run[d as usize] as usize;
        self.whole[r] && self.least[r] == self.mesh.from(d)
    }
}

/// Marks the vertex that d leaves, where the test holds.
fn mark_if(mesh: &Mesh, d: u32, test: bool, rings: &mut [bool])
    requires dart { d < darts mesh.now }
    requires long { length rings.old ≡ vertex_count mesh.now }
    ensures { (v : ℕ) → is_on rings.new v ≡ (is_on rings.old v || ((from_of mesh.now d == v) && test)) }
{
    if test {
        rings[mesh.from(d) as usize] = true;
    }
}
