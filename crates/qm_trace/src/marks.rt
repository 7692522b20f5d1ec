//! Marks at the darts that are ridden in one step.

ghost use Rattle.std.specs.Prelude.{◌≡◌, ◌<◌, ◌||◌, ◌==◌, ℕ, length, cond, true, slice_set};
ghost use Rattle.std.specs.List.{list_any};
ghost use Rattle.def_mesh.specs.Darts.{darts, from_of, to_of, twin_of};
ghost use Rattle.def_mesh.specs.Vertices.{vertex_count};
ghost use Rattle.def_cut.specs.FullCut.{is_on};
ghost use Rattle.def_cut.specs.Events.{mark_twin};
ghost use Rattle.def_cut.specs.Motion.{is_among, is_found};
ghost use Rattle.qm_trace.specs.Tables.{AreDarts};

use qm_mesh::Mesh;

/// Darts of a mesh.
#[derive(Clone, Copy)]
pub(crate) struct Trail<'a> {
    pub(crate) mesh: &'a Mesh,
    pub(crate) darts: &'a [u32],
    pub(crate) ghost low: { AreDarts mesh.now darts.now },
}

impl Trail<'_> {
    /// Sets the marks of the darts.
    pub(crate) fn set(&self, value: bool, marks: &mut Vec<bool>)
        requires { length marks.old.items ≡ darts self.now.mesh.now }
        ensures long { length marks.new.items ≡ length marks.old.items }
        ensures each { (d : ℕ)
            → is_on marks.new.items d ≡ cond (is_among d self.now.darts.now) value (is_on marks.old.items d) }
    {
        for d in self.darts {
            marks[*d as usize] = value;
        }
    }

    /// Marks the edges of the darts.
    pub(crate) fn cover(&self, covered: &mut Vec<bool>)
        requires { length covered.old.items ≡ darts self.now.mesh.now }
        ensures long { length covered.new.items ≡ length covered.old.items }
        ensures each { (d : ℕ) → d < darts self.now.mesh.now
            → is_on covered.new.items d
            ≡ (is_on covered.old.items d
            || (is_among d self.now.darts.now || is_found (twin_of self.now.mesh.now d) self.now.darts.now)) }
    {
        self.cover_each(covered);
    }

    /// Marks the darts and their twins.
    fn cover_each(&self, covered: &mut [bool])
        requires { length covered.old ≡ darts self.now.mesh.now }
        ensures { (d : ℕ) → d < darts self.now.mesh.now
            → is_on covered.new d
            ≡ (is_on covered.old d
            || (is_among d self.now.darts.now || is_found (twin_of self.now.mesh.now d) self.now.darts.now)) }
    {
        let _known = self.mesh.faces();
        for d in self.darts {
            cover_edge(self.mesh, *d, covered);
        }
    }

    /// Marks the vertices where the darts end.
    pub(crate) fn stand(&self, stood: &mut Vec<bool>)
        requires { length stood.old.items ≡ vertex_count self.now.mesh.now }
        ensures long { length stood.new.items ≡ length stood.old.items }
        ensures each { (v : ℕ) → is_on stood.new.items v
            ≡ (is_on stood.old.items v || list_any (λ d. to_of self.now.mesh.now d == v) self.now.darts.now) }
    {
        for d in self.darts {
            stood[self.mesh.to(*d) as usize] = true;
        }
    }

    /// These marks with those of the vertices that the darts leave.
    pub(crate) fn leave(&self, mut stood: Vec<bool>) -> Vec<bool>
        requires { length stood.items ≡ vertex_count self.now.mesh.now }
        ensures long { length result.items ≡ length stood.items }
        ensures each { (v : ℕ) → is_on result.items v
            ≡ (is_on stood.items v || list_any (λ d. from_of self.now.mesh.now d == v) self.now.darts.now) }
    {
        for d in self.darts {
            stood[self.mesh.from(*d) as usize] = true;
        }
        stood
    }
}

/// Marks a dart and its twin.
pub(crate) fn cover_edge(mesh: &Mesh, d: u32, covered: &mut [bool])
    requires dart { d < darts mesh.now }
    requires long { length covered.old ≡ darts mesh.now }
    ensures { covered.new ≡ mark_twin (twin_of mesh.now d) (slice_set covered.old d true) }
{
    covered[d as usize] = true;
    if let Some(twin) = mesh.twin(d) {
        covered[twin as usize] = true;
    }
}
