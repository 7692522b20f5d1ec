//! The rings of a mesh: components whose vertices are all regular, and the least vertex of each.

ghost use Rattle.std.specs.Prelude.{◌≡◌, ◌<◌, ◌*◌, ◌/◌, ◌==◌, ◌&&◌, nat_lt, ℕ, cond, false, length, map, IfOk};
ghost use Rattle.std.specs.Prelude.{slice_index, slice_index_or, slice_set};
ghost use Rattle.def_mesh.specs.Components.{component_numbers, least_faces};
ghost use Rattle.def_mesh.specs.Darts.{darts};
ghost use Rattle.def_mesh.specs.Kinds.{kind_of};
ghost use Rattle.def_mesh.specs.Vertices.{all_vertices, vertex_count};
ghost use Rattle.qm_sing.specs.Rings.{AreRings, AreSeedMarks, is_regular_kind};

use crate::Memory;
use crate::flooding::NONE;
use def_mesh::Kind;
use qm_mesh::Mesh;
use std::alloc::Global;

/// A mesh with the kinds of its vertices and the numbers of its faces' components, of which there are so many.
#[derive(Clone, Copy)]
pub(crate) struct Classed<'a> {
    pub(crate) mesh: &'a Mesh,
    pub(crate) kinds: &'a [Kind],
    pub(crate) component: &'a [u32],
    pub(crate) components: u32,
    pub(crate) ghost classes: { kinds.now ≡ map (kind_of mesh.now) (all_vertices mesh.now) },
    pub(crate) ghost numbers: { component.now ≡ component_numbers mesh.now },
    pub(crate) ghost many: { components ≡ length (least_faces mesh.now) },
}

/// A mark for each vertex: whether it is the seed of a ring. Linear in the darts.
pub(crate) fn seed_marks(alloc: Global, classed: &Classed) -> Result<Vec<bool>, Memory>
    ensures { IfOk result (λ marks. AreSeedMarks classed.now.mesh.now
        (vertex_count classed.now.mesh.now) (darts classed.now.mesh.now) marks.items) }
{
    let mut regular = vec![in alloc; true; classed.components as usize]?;
    let mut least = vec![in alloc; NONE; classed.components as usize]?;
    let mut marks = vec![in alloc; false; classed.mesh.vertices() as usize]?;
    gather(classed, &mut regular, &mut least);
    mark(classed, &regular, &least, &mut marks);
    Ok(marks)
}

/// Fills the tables of the components.
fn gather(classed: &Classed, regular: &mut [bool], least: &mut [u32])
    requires none { AreRings classed.now.mesh.now 0 regular.old least.old }
    ensures { AreRings classed.now.mesh.now (darts classed.now.mesh.now) regular.new least.new }
{
    for d in 0..4 * classed.mesh.faces().len() as u32 {
        let v = classed.mesh.from(d);
        let c = classed.component[(d / 4) as usize];
        take_corner(classed.kinds[v as usize], c, v, regular, least);
    }
}

/// Takes a corner at v of the component c.
fn take_corner(kind: Kind, c: u32, v: u32, regular: &mut [bool], least: &mut [u32])
    requires regular { c < length regular.old }
    requires least { c < length least.old }
    ensures regular { regular.new ≡ cond (is_regular_kind kind) regular.old (slice_set regular.old c false) }
    ensures least { least.new ≡ cond (nat_lt v (slice_index least.old c)) (slice_set least.old c v) least.old }
{
    if !is_regular(kind) {
        regular[c as usize] = false;
    }
    if v < least[c as usize] {
        least[c as usize] = v;
    }
}

/// Whether a vertex of this kind is regular.
fn is_regular(kind: Kind) -> bool
    ensures { result ≡ is_regular_kind kind }
{
    match kind {
        Kind::Regular => true,
        Kind::Singular => false,
        Kind::Corner => false,
        Kind::Reflex => false,
    }
}

/// Marks the seeds.
#[tactic(auto, using(crate::proofs::Longest::numbers_long, crate::proofs::Longest::number_there))]
fn mark(classed: &Classed, regular: &[bool], least: &[u32], marks: &mut [bool])
    requires rings { AreRings classed.now.mesh.now (darts classed.now.mesh.now) regular.now least.now }
    requires none { AreSeedMarks classed.now.mesh.now (vertex_count classed.now.mesh.now) 0 marks.old }
    ensures { AreSeedMarks classed.now.mesh.now
        (vertex_count classed.now.mesh.now) (darts classed.now.mesh.now) marks.new }
{
    let _vertices = classed.mesh.vertices();
    for d in 0..4 * classed.mesh.faces().len() as u32 {
        let v = classed.mesh.from(d);
        let c = classed.component[(d / 4) as usize];
        if is_least(regular, least, c, v) {
            marks[v as usize] = true;
        }
    }
}

/// Whether the component c is a ring and v its least vertex.
fn is_least(regular: &[bool], least: &[u32], c: u32, v: u32) -> bool
    requires regular { c < length regular.now }
    requires least { c < length least.now }
    ensures { result ≡ (slice_index_or regular.now c false && (slice_index least.now c == v)) }
{
    regular[c as usize] && least[c as usize] == v
}
