//! An example of a caller of `Motion`: numbers choose the order of the events.

ghost use Rattle.std.specs.Prelude.{◌≡◌, length, IfOk};
ghost use Rattle.def_cut.specs.Events.{NobodyRuns};
ghost use Rattle.def_cut.specs.Traced.{IsGraphOf};
ghost use Rattle.def_cut.specs.Views.{IsMotionOn};
ghost use Rattle.def_mesh.specs.Sources.{AreSources};

use crate::Memory;
use crate::motion::{Event, Motion};
use def_cut::Graph;
use def_mesh::Starts;
use qm_mesh::Mesh;
use std::alloc::Global;

/// The graph of `trace`, whatever the numbers are. Each number chooses an event: the rider of this number rides where
/// it may, or else the vertex of this number is settled where it may be. Behind the last number any possible event
/// happens, until the motion is over.
pub fn trace_by(alloc: Global, mesh: &Mesh, src: &Starts, choices: &[u32]) -> Result<Graph, Memory>
    requires { AreSources mesh.now src.now }
    ensures { IfOk result (IsGraphOf mesh.now) }
{
    let mut motion = Motion::new(alloc, mesh, src)?;
    'choices: for choice in choices {
        choose(&mut motion, mesh, src.starts.len(), *choice);
    }
    finish(&mut motion, mesh);
    Ok(motion.into_graph(mesh))
}

/// Lets the event of this number happen, where there are so many riders.
fn choose(motion: &mut Motion, mesh: &Mesh, riders: usize, choice: u32)
    requires motion { IsMotionOn mesh.now motion.old }
    requires riders { riders ≡ length motion.old.starts }
    ensures motion { IsMotionOn mesh.now motion.new }
    ensures riders { riders ≡ length motion.new.starts }
{
    if (choice as usize) < riders && motion.may_ride(choice) {
        motion.ride(mesh, choice);
    } else if choice < mesh.vertices() && motion.may_settle(mesh, choice) {
        motion.settle(mesh, choice);
    }
}

/// Lets possible events happen until the motion is over.
fn finish(motion: &mut Motion, mesh: &Mesh)
    requires { IsMotionOn mesh.now motion.old }
    ensures motion { IsMotionOn mesh.now motion.new }
    ensures over { NobodyRuns motion.new.state }
{
    let _known = mesh.faces();
    'events: while let Some(event) = motion.possible(mesh) {
        match event {
            Event::Ride { rider } => motion.ride(mesh, rider),
            Event::Settle { vertex } => motion.settle(mesh, vertex),
        }
    }
}
