//! `graph`: a mesh is read, and the text of its traced graph and layout is written.

ghost use Rattle.std.specs.Prelude.{IfOk};
ghost use Rattle.def_io.specs.Moves.{change, stream};
ghost use Rattle.def_run.specs.Graph.{IsGraphText};
ghost use Rattle.qm_top.specs.Runs.{HasRun};

use crate::input::read_mesh;
use crate::refusal::Refusal;
use def_run::Command;
use qm_grid::patches;
use qm_io::{Memory, Sink, Source, write_all};
use qm_mesh::Mesh;
use qm_report::graph_text;
use qm_sing::sources;
use qm_tmesh::layout;
use qm_trace::trace;
use std::alloc::Global;

/// Reads a mesh, traces its graph and writes the graph and the layout that it cuts.
pub(crate) fn graph<S: Source, O: Sink>(
    alloc: Global,
    input: &mut S,
    out: &mut O,
) -> Result<(), Refusal>
    ensures { HasRun Command.Graph
        (change (S.state input.old) (S.state input.new))
        (stream O.state out.old out.new) result }
{
    let mesh = read_mesh(alloc, input)?.into_mesh();
    let text = text_of(alloc, &mesh)?;
    write_all(out, &text)?;
    Ok(())
}

/// The graph text of a mesh.
fn text_of(alloc: Global, mesh: &Mesh) -> Result<Vec<u8>, Memory>
    ensures { IfOk result (λ text. IsGraphText mesh.now text.items) }
{
    let sources = sources(alloc, mesh)?;
    let graph = trace(alloc, mesh, &sources)?;
    let patches = patches(alloc, mesh, &graph)?;
    let layout = layout(alloc, mesh, &graph, patches)?;
    graph_text(alloc, mesh, &sources, &graph, &layout)
}
