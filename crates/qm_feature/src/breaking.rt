//! The vertices where marked lines break.

ghost use Rattle.std.specs.Prelude.{◌≡◌, ◌<◌, ◌&&◌, not, IfOk, IfSome, length, map};
ghost use Rattle.def_feature.specs.Marks.{goes_through as goes_through_at, is_break as is_break_at};
ghost use Rattle.def_feature.specs.Marks.{is_crossed as is_crossed_at, is_found_on as is_found_at};
ghost use Rattle.def_feature.specs.Marks.{is_least_in_ring, is_touched as is_touched_at};
ghost use Rattle.def_mesh.specs.Darts.{darts};
ghost use Rattle.def_mesh.specs.Vertices.{all_vertices, vertex_count};

use crate::Memory;
use crate::closed::ring_vertices;
use qm_mesh::Mesh;
use qm_sing::is_passed;
use std::alloc::Global;

/// A mark for each vertex: whether marked lines break there. Linear in the darts.
pub fn breaks(alloc: Global, mesh: &Mesh, marks: &[bool]) -> Result<Vec<bool>, Memory>
    requires { length marks.now ≡ darts mesh.now }
    ensures { IfOk result (λ found. found.items ≡ map (is_break_at mesh.now marks.now) (all_vertices mesh.now)) }
{
    let rings = ring_vertices(alloc, mesh, marks)?;
    let mut found = Vec::with_capacity(alloc, rings.len())?;
    for v in 0..mesh.vertices() {
        let crossing = Crossing {
            mesh,
            marks,
            vertex: v,
        };
        found.push(crossing.is_break(rings[v as usize]))?;
    }
    Ok(found)
}

/// A vertex of a mesh with marked edges.
#[derive(Clone, Copy)]
struct Crossing<'a> {
    mesh: &'a Mesh,
    marks: &'a [bool],
    vertex: u32,
    ghost long: { length marks.now ≡ darts mesh.now },
    ghost low: { vertex < vertex_count mesh.now },
}

impl Crossing<'_> {
    /// Whether marked lines break there, where it is known whether it is the least vertex of a closed run that is
    /// marked.
    fn is_break(&self, in_ring: bool) -> bool
        requires { in_ring ≡ is_least_in_ring self.now.mesh.now self.now.marks.now self.now.vertex }
        ensures { result ≡ is_break_at self.now.mesh.now self.now.marks.now self.now.vertex }
    {
        is_passed(self.mesh, self.vertex)
            && (is_bent(self.is_touched(), self.is_crossed()) || in_ring)
    }

    /// Whether some edge there is marked.
    fn is_touched(&self) -> bool
        ensures { result ≡ is_touched_at self.now.mesh.now self.now.marks.now self.now.vertex }
    {
        let _known = self.mesh.faces();
        for d in self.mesh.fan(self.vertex) {
            if self.marks[*d as usize] {
                return true;
            }
        }
        false
    }

    /// Whether two opposite edges there are marked.
    fn is_crossed(&self) -> bool
        ensures { result ≡ is_crossed_at self.now.mesh.now self.now.marks.now self.now.vertex }
    {
        let _known = self.mesh.faces();
        for d in self.mesh.fan(self.vertex) {
            if self.goes_through(self.mesh.twin(*d)) {
                return true;
            }
        }
        false
    }

    /// Whether this twin of a dart is marked, and so is the dart straight on from it.
    fn goes_through(&self, twin: Option<u32>) -> bool
        requires { IfSome twin (λ t. t < darts self.now.mesh.now) }
        ensures { result ≡ goes_through_at self.now.mesh.now self.now.marks.now twin }
    {
        match twin {
            None => false,
            Some(t) => self.marks[t as usize] && is_found_on(self.marks, self.mesh.straight(t)),
        }
    }
}

/// Whether some edge is marked, but no two opposite ones.
fn is_bent(touched: bool, crossed: bool) -> bool
    ensures { result ≡ (touched && not crossed) }
{
    touched && !crossed
}

/// Whether a dart was found and is marked.
fn is_found_on(marks: &[bool], found: Option<u32>) -> bool
    requires { IfSome found (λ d. d < length marks.now) }
    ensures { result ≡ is_found_at found marks.now }
{
    match found {
        None => false,
        Some(d) => marks[d as usize],
    }
}
