//! How riders ride on a mesh, instant by instant or event by event, and the graph that they trace.

#![tactic(auto)]

mod choosing;
mod deciding;
mod ending;
mod events;
mod ground;
mod marks;
mod motion;
mod notes;
mod queue;
mod starting;
mod stepping;
mod telling;
mod tracing;

pub use choosing::trace_by;
pub use deciding::gives_way;
pub use def_cut::{Graph, Moving, Rider, Stop};
pub use def_mesh::Starts;
pub use motion::{Event, Motion};
pub use tracing::{graph_from, trace};

/// Memory was refused.
pub type Memory = std::alloc::AllocError;
