//! What a mesh is for riders: the kinds of its vertices, its components, the darts from which riders start, and runs.

#![tactic(auto)]

mod classes;
mod flooding;
mod lines;
mod origins;
mod rings;

pub use classes::{classify, edge_count, euler};
pub use def_mesh::{Kind, Starts};
pub use def_runs::RunTable;
pub use flooding::components;
pub use lines::{follower, is_passed, runs};
pub use origins::sources;

/// Memory was refused.
pub type Memory = std::alloc::AllocError;
