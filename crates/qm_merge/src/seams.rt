//! Arcs that are a whole side of each of two patches, found from a corner where one of these sides begins.

ghost use Rattle.std.specs.Prelude.{◌≡◌, ◌<◌, ◌↔◌, ◌≤◌, ℕ, IsTrue, IfSome, IfNone};
ghost use Rattle.def_mesh.specs.Darts.{darts};
ghost use Rattle.def_mesh.specs.HalfEdges.{half_edges};
ghost use Rattle.def_cut.specs.Cuts.{IsCorner};
ghost use Rattle.def_cut.specs.FullCut.{is_on};
ghost use Rattle.def_merge.specs.Joins.{AreGlued, AreInOne, IsJoinable};
ghost use Rattle.qm_merge.specs.Walks.{LeadsOn};
ghost use Rattle.qm_merge.specs.Seams.{IsGluedSeam, IsSeam};

use crate::links::Linked;
use qm_grid::Cutting;

/// The other side of an arc begins at `far`; the arc has `long` edges, and `name` is the least of their darts.
#[derive(Clone, Copy, Debug, PartialEq, Eq)]
pub(crate) struct Seam {
    pub(crate) far: u32,
    pub(crate) long: u32,
    pub(crate) name: u32,
}

/// A joinable arc and a corner where one of its sides begins.
#[derive(Clone, Copy, Debug, PartialEq, Eq)]
pub(crate) struct Place {
    pub(crate) start: u32,
    pub(crate) seam: Seam,
}

impl Linked<'_> {
    /// The joinable arc of which a side begins at s. Linear in it if the lengths of both sides are equal and their
    /// patches differ, and else it takes constant time.
    pub(crate) fn seam_from(&self, s: u32) -> Option<Seam>
        requires { s < darts self.now.cut.now.faces }
        ensures found { IfSome result (IsSeam (half_edges self.now.cut.now.faces) (is_on self.now.cut.now.marks) s) }
        ensures none { IfNone result ((t n : ℕ)
            → ¬ IsJoinable (half_edges self.now.cut.now.faces) (is_on self.now.cut.now.marks) s t n) }
    {
        if !self.cut.is_corner(s) {
            return None;
        }
        if !self.may_join(s) {
            return None;
        }
        glued_from(self.cut, s)
    }

    /// Whether the arc from corner s, if it is the whole of both sides, joins two patches. Takes constant time: it may
    /// be false where it is not the whole of both.
    fn may_join(&self, s: u32) -> bool
        requires { IsCorner (half_edges self.now.cut.now.faces) (is_on self.now.cut.now.marks) s }
        ensures { (t n : ℕ) → AreGlued (half_edges self.now.cut.now.faces) (is_on self.now.cut.now.marks) s t n
            → IsTrue result
            ↔ (¬ AreInOne (half_edges self.now.cut.now.faces) (is_on self.now.cut.now.marks) s t) }
    {
        self.cut.is_full();
        let Some(twin) = self.cut.twin(s) else {
            return false;
        };
        let end = self.cut.next(twin);
        if !self.cut.is_cut(end) {
            return false;
        }
        let far = self.round_from(end).fourth;
        if self.links.long[far as usize] != self.links.long[s as usize] {
            return false;
        }
        !self.is_around(s, far)
    }
}

/// The arc that is the whole side from corner s and a whole side on the other side, too.
fn glued_from(cut: &Cutting, s: u32) -> Option<Seam>
    requires corner { IsCorner (half_edges cut.now.faces) (is_on cut.now.marks) s }
    ensures found { IfSome result (IsGluedSeam (half_edges cut.now.faces) (is_on cut.now.marks) s) }
    ensures none { IfNone result ((t n : ℕ) → ¬ AreGlued (half_edges cut.now.faces) (is_on cut.now.marks) s t n) }
{
    cut.is_full();
    let mut d = s;
    let mut far = s;
    let mut name = s;
    for n in 0..cut.darts() + 1 {
        let Some(twin) = cut.twin(d) else {
            return None;
        };
        if !leads_on(cut, twin, n, far) {
            return None;
        }
        far = twin;
        name = name.min(d).min(far);
        if cut.is_cut(cut.next(d)) {
            if !cut.is_cut(cut.prev(far)) {
                return None;
            }
            return Some(Seam {
                far,
                long: n + 1,
                name,
            });
        }
        d = cut.east(d);
    }
    unreachable!()
}

/// Whether d begins the far side at the end of the near one, or goes straight on to `far`.
fn leads_on(cut: &Cutting, d: u32, n: u32, far: u32) -> bool
    requires dart { d < darts cut.now.faces }
    ensures { IsTrue result ↔ LeadsOn (half_edges cut.now.faces) (is_on cut.now.marks) d n far }
{
    cut.is_full();
    let ends = cut.is_cut(cut.next(d));
    if n == 0 {
        return ends;
    }
    !ends && cut.east(d) == far
}
