//! Marked edges of a mesh: where their lines break, and the graph that is traced beside them.

#![tactic(auto)]

mod breaking;
mod closed;
mod straightening;
mod tracing;

pub use breaking::breaks;
pub use def_cut::{Graph, Rider, Stop};
pub use def_mesh::Starts;
pub use straightening::conforming;
pub use tracing::{marked_starts, trace_marked};

/// Memory was refused.
pub type Memory = std::alloc::AllocError;
