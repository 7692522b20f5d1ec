//! The merged cut: the first joinable arc leaves, again and again.

ghost use Rattle.std.specs.Prelude.{◌≡◌, ◌≤◌, ◌<◌, ℕ, length, map, true, IfOk, OnOk, IfSome, IfNone};
ghost use Rattle.def_mesh.specs.Darts.{darts};
ghost use Rattle.def_mesh.specs.HalfEdges.{half_edges};
ghost use Rattle.def_cut.specs.FullCut.{is_on, IsFullCut};
ghost use Rattle.def_mesh.specs.Vertices.{all_vertices};
ghost use Rattle.def_merge.specs.Joins.{IsJoinable, IsNameOf, IsWithout};
ghost use Rattle.def_merge.specs.Merged.{IsMergedBy, IsMergedCut};
ghost use Rattle.def_merge.specs.Beside.{may_beside};
ghost use Rattle.def_feature.specs.Beside.{IsCutBeside};
ghost use Rattle.def_feature.specs.Marks.{AreMarks, is_break};
ghost use Rattle.qm_merge.specs.Beside.{IsBeside};
ghost use Rattle.def_known.specs.Cutting.{IsCutting};
ghost use Rattle.qm_merge.specs.Links.{AreTied, at};
ghost use Rattle.qm_merge.specs.Seams.{IsSeam};
ghost use Rattle.qm_merge.specs.Waiting.{AreBelow, WaitStill, left_over};

use crate::drops::drop_seam;
use crate::held::may_leave;
use crate::links::{Linked, Links, all_links, join_rounds};
use crate::seams::Place;
use crate::waiting::{Names, all_names, note_from};
use def_cut::Graph;
use qm_grid::Cutting;
use qm_mesh::Mesh;
use std::alloc::{AllocError, Global};

/// Merges the patches of a full cut across whole sides, beside no marked line. The riders stay. The time is that of
/// [`merge_beside`].
#[tactic(auto, using(merge_laws::proofs::Beside::none_merged))]
pub fn merge(alloc: Global, mesh: &Mesh, graph: &Graph) -> Result<Graph, AllocError>
    requires cut { IsFullCut mesh.now graph.now.covered.items }
    ensures merged { IfOk result (λ g. IsMergedCut mesh.now graph.now.covered.items g.covered.items) }
    ensures full { IfOk result (λ g. IsFullCut mesh.now g.covered.items) }
    ensures part { IfOk result (λ g.
        (d : ℕ) → is_on g.covered.items d ≡ true → is_on graph.now.covered.items d ≡ true) }
    ensures riders { IfOk result (λ g. g.riders.items ≡ graph.now.riders.items) }
{
    let marks = vec![in alloc; false; 4 * mesh.faces().len()]?;
    let breaks = vec![in alloc; false; mesh.vertices() as usize]?;
    merge_beside(alloc, mesh, graph, &marks, &breaks)
}

/// Merges the patches of a full cut across whole sides, beside marked lines that break at these vertices: each marked
/// edge stays, and so does a corner at each break. The riders stay. An arc is walked only where both its sides are
/// whole and of one length, and is refused in constant time elsewhere: linear in the darts, up to logarithms, but for
/// sides of two patches that grow together, step by step.
pub fn merge_beside(
    alloc: Global,
    mesh: &Mesh,
    graph: &Graph,
    marks: &[bool],
    breaks: &[bool],
) -> Result<Graph, AllocError>
    requires marks { AreMarks mesh.now marks.now }
    requires breaks { breaks.now ≡ map (is_break mesh.now marks.now) (all_vertices mesh.now) }
    requires beside { IsCutBeside mesh.now marks.now graph.now.covered.items }
    ensures merged { IfOk result (λ g.
        IsMergedBy mesh.now (may_beside mesh.now marks.now) graph.now.covered.items g.covered.items) }
    ensures keeps { IfOk result (λ g. IsCutBeside mesh.now marks.now g.covered.items) }
    ensures full { IfOk result (λ g. IsFullCut mesh.now g.covered.items) }
    ensures part { IfOk result (λ g.
        (d : ℕ) → is_on g.covered.items d ≡ true → is_on graph.now.covered.items d ≡ true) }
    ensures riders { IfOk result (λ g. g.riders.items ≡ graph.now.riders.items) }
{
    let mut covered = Vec::with_capacity(alloc, 4 * mesh.faces().len())?;
    covered.extend_from_slice(&graph.covered)?;
    merge_all(alloc, mesh, marks, breaks, &mut covered)?;
    let riders = Vec::from_slice(alloc, &graph.riders)?;
    Ok(Graph { covered, riders })
}

#[tactic(auto, using(merge_laws::proofs::Beside::beside_reached, face_laws::proofs::FullCuts::from_cut))]
fn merge_all(
    alloc: Global,
    mesh: &Mesh,
    marks: &[bool],
    breaks: &[bool],
    cut: &mut [bool],
) -> Result<(), AllocError>
    requires cutting { IsCutting mesh.now cut.old }
    requires beside { IsBeside mesh.now marks.now breaks.now cut.old }
    ensures merged { OnOk result (IsMergedBy mesh.now (may_beside mesh.now marks.now) cut.old cut.new) }
    ensures keeps { OnOk result (IsCutBeside mesh.now marks.now cut.new) }
    ensures full { OnOk result (IsFullCut mesh.now cut.new) }
    ensures part { OnOk result ((d : ℕ) → is_on cut.new d ≡ true → is_on cut.old d ≡ true) }
{
    let whole = Cutting::new(mesh, cut);
    let mut links = all_links(alloc, &whole)?;
    let mut names = all_names(alloc, &whole, &mut links)?;
    while let Some(name) = names.pop_first() {
        let now = Cutting::new(mesh, cut);
        let linked = Linked {
            cut: &now,
            links: &links,
        };
        if let Some(place) = place_of(&linked, name) {
            if may_leave(&now, marks, breaks, place) {
                drop_first(mesh, cut, &mut links, &mut names, place)?;
            }
        }
    }
    Ok(())
}

/// The joinable arc from the start of this name, if that is its name. Linear in it.
#[tactic(auto, using(crate::proofs::Linked::read_at))]
fn place_of(linked: &Linked, name: u32) -> Option<Place>
    requires { name < darts linked.now.cut.now.faces }
    ensures found { IfSome result (λ place.
        IsSeam (half_edges linked.now.cut.now.faces) (is_on linked.now.cut.now.marks) place.start place.seam) }
    ensures start { IfSome result (λ place. place.start ≡ at linked.now.links.now.starts.items name) }
    ensures named { IfSome result (λ place. place.seam.name ≡ name) }
    ensures none { IfNone result ((t n : ℕ)
        → IsJoinable (half_edges linked.now.cut.now.faces) (is_on linked.now.cut.now.marks)
        (at linked.now.links.now.starts.items name) t n
        → ¬ IsNameOf (half_edges linked.now.cut.now.faces) (at linked.now.links.now.starts.items name) t n name) }
{
    linked.cut.is_full();
    let start = linked.links.starts[name as usize];
    let Some(seam) = linked.seam_from(start) else {
        return None;
    };
    if seam.name != name {
        return None;
    }
    Some(Place { start, seam })
}

/// Takes a joinable arc out of the cut, and notes what is joinable then and was not.
#[tactic(auto, using(crate::proofs::Rejoined::cutting_after))]
fn drop_first(
    mesh: &Mesh,
    cut: &mut [bool],
    links: &mut Links,
    names: &mut Names,
    place: Place,
) -> Result<(), AllocError>
    requires cutting { IsCutting mesh.now cut.old }
    requires tied { AreTied (half_edges mesh.now) (is_on cut.old) links.old }
    requires seam { IsSeam (half_edges mesh.now) (is_on cut.old) place.start place.seam }
    requires below { AreBelow names.old (darts mesh.now) }
    ensures cutting { IsCutting mesh.now cut.new }
    ensures tied { AreTied (half_edges mesh.now) (is_on cut.new) links.new }
    ensures long { length cut.new ≡ length cut.old }
    ensures without { IsWithout (half_edges mesh.now) (is_on cut.old) (is_on cut.new)
        place.start place.seam.far place.seam.long }
    ensures waiting { OnOk result (WaitStill (half_edges mesh.now) (is_on cut.old) (is_on cut.new)
        names.old names.new links.old.starts.items links.new.starts.items) }
    ensures below { OnOk result (AreBelow names.new (darts mesh.now)) }
    ensures fewer { OnOk result (left_over cut.new names.new ≤ left_over cut.old names.old) }
{
    let before = Cutting::new(mesh, cut);
    let linked = Linked {
        cut: &before,
        links,
    };
    let near = linked.round_from(place.start);
    let far = linked.round_from(place.seam.far);
    join_rounds(links, near, far);
    drop_seam(mesh, cut, place.start, place.seam);
    let after = Cutting::new(mesh, cut);
    note_from(&after, links, names, near.fourth)?;
    note_from(&after, links, names, far.fourth)
}
