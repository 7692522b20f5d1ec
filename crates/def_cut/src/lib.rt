//! What a cut of a mesh is: the graph that riders trace, what a caller sees who moves them one at a time, full cuts,
//! and the grids of cells that a cut leaves.

#![tactic(auto)]

mod graph;
mod moving;
mod patch;

pub use graph::{Graph, Rider, Stop};
pub use moving::Moving;
pub use patch::Patch;
