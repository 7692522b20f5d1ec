//! The line of a benchmark, from its mesh.

ghost use Rattle.std.specs.Prelude.{◌≡◌, IfOk, IfErr};
ghost use Rattle.def_gen.specs.Steps.{steps_soup};
ghost use Rattle.def_run.specs.Bench.{IsBenchFail, WritesBench};

use crate::deviation::kept_deviation;
use def_remesh::LayoutFail;
use def_report::Counts;
use qm_cut::layout_from;
use qm_report::summary_text;
use qm_sing::{edge_count, sources};
use qm_stages::{CutMesh, Meshed};
use std::alloc::Global;

/// The line of the benchmark of this size, whose mesh this is.
///
/// The time is linear in the faces, and beyond it that of the least lengths.
pub(crate) fn summary_of(alloc: Global, meshed: Meshed, size: u32) -> Result<Vec<u8>, LayoutFail>
    requires { meshed ≡ steps_soup size }
    ensures text { IfOk result (λ text. WritesBench size text.items) }
    ensures refused { IfErr result (IsBenchFail size) }
{
    let mesh = meshed.mesh();
    let sources = sources(alloc, mesh)?;
    let layout = layout_from(alloc, mesh, &sources)?;
    let vertices = mesh.vertices();
    let edges = edge_count(mesh);
    let faces = mesh.faces().len() as u32;
    let cut = CutMesh::new(meshed, layout);
    let deviation = kept_deviation(alloc, &cut)?;
    let t = cut.layout();
    let counts = Counts {
        deviation,
        vertices,
        edges,
        faces,
        riders: sources.starts.len() as u32,
        patches: t.patches.len() as u32,
        arcs: t.arcs.len() as u32,
    };
    Ok(summary_text(alloc, size, &counts)?)
}
