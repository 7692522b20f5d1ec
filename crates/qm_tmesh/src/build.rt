//! The layout of a mesh and a full cut of it.

ghost use Rattle.std.specs.Prelude.{map, IfOk};
ghost use Rattle.def_mesh.specs.HalfEdges.{half_edges};
ghost use Rattle.def_cut.specs.FullCut.{is_on, IsFullCut};
ghost use Rattle.def_cut.specs.Grids.{rectangle, IsPartition};
ghost use Rattle.def_cut.specs.Steps.{face_of};
ghost use Rattle.def_layout.specs.FaceLayouts.{IsCutLayout};
ghost use Rattle.def_layout.specs.Layouts.{layout_of};

use crate::Memory;
use crate::arcs::arcs;
use crate::names::starts;
use crate::nodes::{Listed, Nodes, find_nodes};
use crate::sides::{Runs, sides};
use crate::uses::uses;
use def_cut::{Graph, Patch};
use def_layout::TMesh;
use qm_mesh::Mesh;
use std::alloc::Global;

/// The layout of a mesh and a full cut of it, from the patches of that cut. Linear in the darts. After want of memory
/// the patches are dropped.
pub fn layout(
    alloc: Global,
    mesh: &Mesh,
    graph: &Graph,
    patches: Vec<Patch>,
) -> Result<TMesh, Memory>
    requires cut { IsFullCut mesh.now graph.now.covered.items }
    requires patches { IsPartition (half_edges mesh.now) (is_on graph.now.covered.items) face_of
        (map rectangle patches.items) }
    ensures { IfOk result (λ t. IsCutLayout mesh.now graph.now.covered.items (layout_of t)) }
{
    let cut = graph.covered.as_slice();
    let nodes = find_nodes(alloc, mesh, cut)?;
    let starts = starts(alloc, mesh, cut, &nodes.marks)?;
    let arcs = arcs(alloc, mesh, cut, &nodes, &starts)?;
    let uses = uses(alloc, mesh, cut, &nodes.marks, &arcs)?;
    let runs = Runs { arcs, uses };
    let sides = sides(alloc, mesh, &patches, &runs)?;
    let Runs { arcs, uses: _ } = runs;
    let Nodes { marks: _, listed } = nodes;
    let Listed { list, places: _ } = listed;
    Ok(TMesh {
        nodes: list,
        arcs,
        patches,
        sides,
    })
}
