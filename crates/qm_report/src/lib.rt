//! The texts that report of a mesh.
#![tactic(auto)]

mod graph;
mod layout;
mod lines;
mod parts;
mod riders;
mod summary;

pub use def_report::Counts;
pub use graph::graph_text;
pub use layout::layout_text;
pub use summary::summary_text;

/// Want of memory.
pub type Memory = std::alloc::AllocError;
