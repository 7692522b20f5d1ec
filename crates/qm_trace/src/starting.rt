//! The tables before the first instant.

ghost use Rattle.std.specs.Prelude.{◌≡◌, ◌<◌, ◌&&◌, ◌||◌, ℕ, length, IfOk};
ghost use Rattle.std.specs.List.{list_any};
ghost use Rattle.def_mesh.specs.Darts.{all_darts, darts};
ghost use Rattle.def_mesh.specs.Kinds.{is_end};
ghost use Rattle.def_mesh.specs.Vertices.{vertex_count};
ghost use Rattle.def_cut.specs.FullCut.{is_on};
ghost use Rattle.def_feature.specs.Marks.{AreMarks};
ghost use Rattle.def_feature.specs.Marked.{marked_starts};
ghost use Rattle.qm_trace.specs.Tables.{IsGround, IsTableAt};

use crate::Memory;
use crate::ground::ground_of;
use crate::marks::Trail;
use crate::queue::{Sight, first_riders};
use crate::stepping::Tables;
use qm_mesh::Mesh;
use std::alloc::Global;

/// Marked edges of a mesh, and the darts along which riders start beside them.
#[derive(Clone, Copy)]
pub(crate) struct Course<'a> {
    pub(crate) mesh: &'a Mesh,
    pub(crate) starts: &'a [u32],
    pub(crate) marks: &'a [bool],
    pub(crate) ghost lines: { AreMarks mesh.now marks.now },
    pub(crate) ghost beside: { starts.now ≡ marked_starts mesh.now marks.now },
}

impl Course<'_> {
    /// These marks with those of the ends of marked edges.
    #[tactic(auto, using(crate::proofs::Tellings::any_range_more, crate::proofs::Tellings::or_shift))]
    fn stand_marked(&self, mut stood: Vec<bool>) -> Vec<bool>
        requires { length stood.items ≡ vertex_count self.now.mesh.now }
        ensures long { length result.items ≡ length stood.items }
        ensures each { (v : ℕ)
            → is_on result.items v ≡ (is_on stood.items v
            || list_any (λ d. is_on self.now.marks.now d && is_end self.now.mesh.now v d)
            (all_darts self.now.mesh.now)) }
    {
        for d in 0..4 * self.mesh.faces().len() as u32 {
            self.stand_end(d, &mut stood);
        }
        stood
    }

    /// Marks both ends of d, where it is marked.
    fn stand_end(&self, d: u32, stood: &mut Vec<bool>)
        requires dart { d < darts self.now.mesh.now }
        requires long { length stood.old.items ≡ vertex_count self.now.mesh.now }
        ensures long { length stood.new.items ≡ length stood.old.items }
        ensures each { (v : ℕ) → is_on stood.new.items v
            ≡ (is_on stood.old.items v || (is_on self.now.marks.now d && is_end self.now.mesh.now v d)) }
    {
        if self.marks[d as usize] {
            stood[self.mesh.from(d) as usize] = true;
            stood[self.mesh.to(d) as usize] = true;
        }
    }
}

/// The tables where riders wait at the starts and the marked edges are covered. Linear in the darts of the mesh.
pub(crate) fn first_tables(alloc: Global, course: &Course) -> Result<Tables, Memory>
    ensures ground { IfOk result (λ t.
        IsGround course.now.mesh.now t.sight.ground.boundary.items t.sight.ground.singular.items) }
    ensures at { IfOk result (λ t. IsTableAt course.now.mesh.now course.now.marks.now 0
        t.riders.items t.sight.stood.items t.covered.items t.sight.taken.items) }
{
    let darts = 4 * course.mesh.faces().len();
    let ground = ground_of(alloc, course.mesh)?;
    let riders = first_riders(alloc, course.starts)?;
    let covered = Vec::from_slice(alloc, course.marks)?;
    let taken = vec![in alloc; false; darts]?;
    let nowhere = vec![in alloc; false; course.mesh.vertices() as usize]?;
    let starts = Trail {
        mesh: course.mesh,
        darts: course.starts,
    };
    let left = starts.leave(nowhere);
    let stood = course.stand_marked(left);
    Ok(Tables {
        riders,
        covered,
        sight: Sight {
            ground,
            stood,
            taken,
        },
    })
}
