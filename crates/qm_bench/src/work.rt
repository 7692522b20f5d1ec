//! Work on one network: its matching graph, and the verdict on duals over it.

ghost use Rattle.std.specs.Prelude.{IfOk};
ghost use Rattle.def_flow.specs.Network.{network};
ghost use Rattle.def_flow.specs.Admissible.{entries, AreNetLengths, IsAdmissible};
ghost use Rattle.def_matching.specs.Matching.{graph, IsSmallGraph};

use crate::network::{lengths, network as measured};
use crate::sets::{Shape, dual_of};
use def_flow::{Gadget, MAX_TANGLE};
use qm_dual::{SmallGraph, dual_ok};
use qm_gadget::graph_of;
use qm_net::{BoundedNet, LooseNet, admissible, are_lengths, is_within_bounds, tangle_of};
use std::alloc::{AllocError, Global};
use std::io;
use std::process::ExitCode;

/// Does the work of a name as often as is asked, and tells what came of it.
pub(crate) fn tell_work(rt: &HostRuntime, name: &str, times: u32) -> io::Result<ExitCode> {
    let net = measured(rt.alloc())?;
    let x = lengths(rt.alloc())?;
    if !is_within_bounds(&net) {
        return Ok(ExitCode::from(2));
    }
    if !are_lengths(&net, &x) {
        return Ok(ExitCode::from(3));
    }
    if !admissible(&net, &x) {
        return Ok(ExitCode::from(4));
    }
    if tangle_of(rt.alloc(), &BoundedNet { whole: &net })? > u128::from(MAX_TANGLE) {
        return Ok(ExitCode::from(5));
    }
    let work = Work {
        net: LooseNet { whole: &net },
        x: &x,
    };
    let told = run(rt.alloc(), &work, task_named(name), times)?;
    println!(rt; "{told}")?;
    Ok(ExitCode::SUCCESS)
}

fn task_named(name: &str) -> Task {
    match name {
        "graph" => Task::Graph,
        "nest" => Task::DualOk(Shape::Nest),
        "tree" => Task::DualOk(Shape::Tree),
        _ => Task::DualOk(Shape::Comb),
    }
}

/// The matching graph, or the verdict on a dual over it.
#[derive(Clone, Copy, Debug, PartialEq, Eq)]
enum Task {
    Graph,
    DualOk(Shape),
}

/// A network that is not too tangled, and an admissible list of lengths.
#[derive(Clone, Copy)]
struct Work<'n, 'x> {
    net: LooseNet<'n>,
    x: &'x [u64],
    ghost lengths: { AreNetLengths net.whole.now.arcs.items x.now },
    ghost admissible: { IsAdmissible (network net.whole.now) (entries x.now) },
}

/// Does a task as often as is asked, and tells what came of it.
fn run(alloc: Global, work: &Work, task: Task, times: u32) -> Result<String, AllocError> {
    match task {
        Task::Graph => build(alloc, work, times),
        Task::DualOk(shape) => {
            let gadget = gadget_of(alloc, work)?;
            check_dual(
                alloc,
                &SmallGraph {
                    whole: &gadget.graph,
                },
                shape,
                times,
            )
        }
    }
}

/// The matching graph, with its lows and numbers of units.
fn gadget_of(alloc: Global, work: &Work) -> Result<Gadget, AllocError>
    ensures { IfOk result (λ gadget. IsSmallGraph (graph gadget.graph)) }
{
    let net = BoundedNet {
        whole: work.net.whole,
    };
    graph_of(alloc, &net, work.x, 1)
}

/// Builds the matching graph, and tells how many vertices and edges it has.
fn build(alloc: Global, work: &Work, times: u32) -> Result<String, AllocError> {
    let mut vertices = 0;
    let mut edges = 0;
    for _ in 0..times {
        let gadget = gadget_of(alloc, work)?;
        vertices = gadget.graph.n;
        edges = gadget.graph.edges.len();
    }
    format!(in alloc; "{vertices} vertices, {edges} edges")
}

/// Checks a dual over the graph, and tells the verdict.
fn check_dual(
    alloc: Global,
    g: &SmallGraph,
    shape: Shape,
    times: u32,
) -> Result<String, AllocError> {
    let dual = dual_of(alloc, g.n(), shape)?;
    let mut verdict = dual_ok(alloc, g, &dual)?;
    for _ in 1..times {
        verdict = dual_ok(alloc, g, &dual)?;
    }
    format!(in alloc; "{verdict:?}")
}
