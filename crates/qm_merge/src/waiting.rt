//! The names of the joinable arcs of a cut, kept while arcs leave.

ghost use Rattle.std.specs.Prelude.{◌+◌, ◌<◌, ◌≤◌, ℕ, OnOk, IfOk};
ghost use Rattle.std.specs.BTreeSet.{btree_set_len};
ghost use Rattle.def_mesh.specs.Darts.{darts};
ghost use Rattle.def_mesh.specs.HalfEdges.{half_edges};
ghost use Rattle.def_cut.specs.FullCut.{is_on};
ghost use Rattle.def_merge.specs.Joins.{IsJoinable, IsNameOf};
ghost use Rattle.qm_merge.specs.Links.{AreTied};
ghost use Rattle.qm_merge.specs.Waiting.{AllWait, AreBelow, IsNoted};

use crate::links::{Linked, Links};
use qm_grid::Cutting;
use std::alloc::{AllocError, Global};
use std::collections::BTreeSet;

/// The names of joinable arcs; there may be others, too.
pub(crate) type Names = BTreeSet<u32>;

/// The names of all joinable arcs, each with its start among the links. Linear in the darts, up to logarithms.
pub(crate) fn all_names(
    alloc: Global,
    cut: &Cutting,
    links: &mut Links,
) -> Result<Names, AllocError>
    requires tied { AreTied (half_edges cut.now.faces) (is_on cut.now.marks) links.old }
    ensures tied { AreTied (half_edges cut.now.faces) (is_on cut.now.marks) links.new }
    ensures all { IfOk result (λ names.
        AllWait (half_edges cut.now.faces) (is_on cut.now.marks) names links.new.starts.items) }
    ensures below { IfOk result (λ names. AreBelow names (darts cut.now.faces)) }
{
    cut.is_full();
    let mut names = BTreeSet::new(alloc);
    for d in 0..cut.darts() {
        note_from(cut, links, &mut names, d)?;
    }
    Ok(names)
}

/// Notes the joinable arc of which a side begins at s, if there is one. Linear in it.
pub(crate) fn note_from(
    cut: &Cutting,
    links: &mut Links,
    names: &mut Names,
    s: u32,
) -> Result<(), AllocError>
    requires tied { AreTied (half_edges cut.now.faces) (is_on cut.now.marks) links.old }
    requires dart { s < darts cut.now.faces }
    ensures tied { AreTied (half_edges cut.now.faces) (is_on cut.now.marks) links.new }
    ensures noted { OnOk result ((t n name : ℕ) → IsJoinable (half_edges cut.now.faces) (is_on cut.now.marks) s t n
        → IsNameOf (half_edges cut.now.faces) s t n name → IsNoted names.new links.new.starts.items s t name) }
    ensures kept { OnOk result ((r u m name : ℕ) → IsJoinable (half_edges cut.now.faces) (is_on cut.now.marks) r u m
        → IsNameOf (half_edges cut.now.faces) r u m name → IsNoted names.old links.old.starts.items r u name
        → IsNoted names.new links.new.starts.items r u name) }
    ensures below { OnOk result
        (AreBelow names.old (darts cut.now.faces) → AreBelow names.new (darts cut.now.faces)) }
    ensures few { OnOk result (btree_set_len names.new ≤ btree_set_len names.old + 1) }
{
    cut.is_full();
    let linked = Linked { cut, links };
    if let Some(seam) = linked.seam_from(s) {
        names.insert(seam.name)?;
        links.starts[seam.name as usize] = s;
    }
    Ok(())
}
