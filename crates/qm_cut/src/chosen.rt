//! The layout of a mesh whose cut is chosen.

ghost use Rattle.std.specs.Prelude.{◌≡◌, option_copied, IfOk};
ghost use Rattle.def_feature.specs.Conforming.{IsConforming};
ghost use Rattle.def_feature.specs.Marks.{AreMarks};
ghost use Rattle.def_layout.specs.Layouts.{layout_of};
ghost use Rattle.def_layoutnet.specs.MeshLayouts.{IsSomeLayout};
ghost use Rattle.def_mesh.specs.Sources.{AreSources};
ghost use Rattle.def_patches.specs.Chosen.{AreKeptMarks, IsChosenCut, IsChosenLayout, IsKeepingCut, IsPlainCut};

use crate::traced::graph_layout;
use def_cut::Graph;
use def_layout::TMesh;
use def_mesh::Starts;
use def_patches::Patches;
use qm_feature::{breaks, conforming, trace_marked};
use qm_merge::{merge, merge_beside};
use qm_mesh::Mesh;
use qm_sing::sources;
use qm_trace::trace;
use std::alloc::{AllocError, Global};

/// The layout that the chosen cut of a mesh gives: the cut that keeps these marked edges, a mark for each dart, or the
/// one without marks. Linear in the faces, but for merged patches, which take the time of `merge_beside`; conforming
/// patches can be many times as many as traced ones.
pub fn chosen_layout(
    alloc: Global,
    mesh: &Mesh,
    kept: Option<&[bool]>,
    patches: Patches,
) -> Result<TMesh, AllocError>
    requires { AreKeptMarks mesh.now (option_copied kept) }
    ensures chosen { IfOk result (λ t. IsChosenLayout mesh.now (option_copied kept.entry) patches (layout_of t)) }
    ensures mesh { IfOk result (λ t. (is : IsSomeLayout (layout_of t)) × (is.faces ≡ mesh.now)) }
{
    let _known = mesh.faces();
    let sources = sources(alloc, mesh)?;
    let graph = chosen_graph(alloc, mesh, &sources, kept, patches)?;
    graph_layout(alloc, mesh, &graph)
}

/// The graph of the chosen cut.
fn chosen_graph(
    alloc: Global,
    mesh: &Mesh,
    sources: &Starts,
    kept: Option<&[bool]>,
    patches: Patches,
) -> Result<Graph, AllocError>
    requires sources { AreSources mesh.now sources.now }
    requires kept { AreKeptMarks mesh.now (option_copied kept) }
    ensures { IfOk result (λ g. IsChosenCut mesh.now (option_copied kept.entry) patches g.covered.items) }
{
    match kept {
        None => plain_graph(alloc, mesh, sources, patches),
        Some(marks) => keeping_graph(alloc, mesh, sources, marks, patches),
    }
}

/// The graph of the chosen cut without marks.
fn plain_graph(
    alloc: Global,
    mesh: &Mesh,
    sources: &Starts,
    patches: Patches,
) -> Result<Graph, AllocError>
    requires { AreSources mesh.now sources.now }
    ensures { IfOk result (λ g. IsPlainCut mesh.now patches g.covered.items) }
{
    match patches {
        Patches::Traced => trace(alloc, mesh, sources),
        Patches::Merged => {
            let graph = trace(alloc, mesh, sources)?;
            merge(alloc, mesh, &graph)
        }
        Patches::Conforming => {
            let marks = vec![in alloc; false; 4 * mesh.faces().len()]?;
            conforming_graph(alloc, mesh, sources, &marks)
        }
    }
}

/// The graph of the chosen cut that keeps these marks.
#[tactic(auto, using(feature_laws::proofs::Arcs::traced_beside))]
fn keeping_graph(
    alloc: Global,
    mesh: &Mesh,
    sources: &Starts,
    marks: &[bool],
    patches: Patches,
) -> Result<Graph, AllocError>
    requires sources { AreSources mesh.now sources.now }
    requires marks { AreMarks mesh.now marks.now }
    ensures { IfOk result (λ g. IsKeepingCut mesh.now marks.now patches g.covered.items) }
{
    match patches {
        Patches::Traced => trace_marked(alloc, mesh, sources, marks),
        Patches::Merged => {
            let _known = mesh.faces();
            let graph = trace_marked(alloc, mesh, sources, marks)?;
            let breaks = breaks(alloc, mesh, marks)?;
            merge_beside(alloc, mesh, &graph, marks, &breaks)
        }
        Patches::Conforming => conforming_graph(alloc, mesh, sources, marks),
    }
}

/// The conforming cut, along which nobody rides.
fn conforming_graph(
    alloc: Global,
    mesh: &Mesh,
    sources: &Starts,
    marks: &[bool],
) -> Result<Graph, AllocError>
    requires sources { AreSources mesh.now sources.now }
    requires marks { AreMarks mesh.now marks.now }
    ensures { IfOk result (λ g. IsConforming mesh.now marks.now g.covered.items) }
{
    let covered = conforming(alloc, mesh, sources, marks)?;
    let riders = Vec::new(alloc);
    Ok(Graph { covered, riders })
}
