//! The layout that a full cut of a mesh gives: its motorcycle graph, or any other.

ghost use Rattle.std.specs.Prelude.{◌≡◌, IfOk};
ghost use Rattle.def_cut.specs.FullCut.{IsFullCut};
ghost use Rattle.def_cut.specs.Traced.{traced_marks};
ghost use Rattle.def_layout.specs.FaceLayouts.{IsCutLayout};
ghost use Rattle.def_layout.specs.Layouts.{layout_of};
ghost use Rattle.def_layoutnet.specs.MeshLayouts.{IsSomeLayout};
ghost use Rattle.def_mesh.specs.Sources.{AreSources};

use crate::quads::are_quads;
use def_cut::Graph;
use def_layout::TMesh;
use def_mesh::Starts;
use qm_grid::patches;
use qm_mesh::Mesh;
use qm_sing::sources;
use qm_tmesh::layout;
use qm_trace::trace;
use std::alloc::{AllocError, Global};

/// The layout that the motorcycle graph of a mesh cuts. Linear in the faces.
pub fn traced_layout(alloc: Global, mesh: &Mesh) -> Result<TMesh, AllocError>
    ensures traced { IfOk result (λ t. IsCutLayout mesh.now (traced_marks mesh.now) (layout_of t)) }
    ensures mesh { IfOk result (λ t. (is : IsSomeLayout (layout_of t)) × (is.faces ≡ mesh.now)) }
{
    let sources = sources(alloc, mesh)?;
    layout_from(alloc, mesh, &sources)
}

/// The same, where the sources of the mesh are at hand.
pub fn layout_from(alloc: Global, mesh: &Mesh, sources: &Starts) -> Result<TMesh, AllocError>
    requires { AreSources mesh.now sources.now }
    ensures traced { IfOk result (λ t. IsCutLayout mesh.now (traced_marks mesh.now) (layout_of t)) }
    ensures mesh { IfOk result (λ t. (is : IsSomeLayout (layout_of t)) × (is.faces ≡ mesh.now)) }
{
    let graph = trace(alloc, mesh, sources)?;
    graph_layout(alloc, mesh, &graph)
}

/// The layout that a graph cuts, whose covered edges are a full cut. Linear in the faces.
pub fn graph_layout(alloc: Global, mesh: &Mesh, graph: &Graph) -> Result<TMesh, AllocError>
    requires cut { IsFullCut mesh.now graph.now.covered.items }
    ensures laid { IfOk result (λ t. IsCutLayout mesh.now graph.now.covered.items (layout_of t)) }
    ensures mesh { IfOk result (λ t. (is : IsSomeLayout (layout_of t)) × (is.faces ≡ mesh.now)) }
{
    are_quads(mesh.faces());
    let patches = patches(alloc, mesh, graph)?;
    layout(alloc, mesh, graph, patches)
}
