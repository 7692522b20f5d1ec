//! Fewer and larger patches: arcs that join two patches along a whole side of each leave the cut, the first one first.

#![tactic(auto)]

mod corners;
mod drops;
mod held;
mod links;
mod merged;
mod seams;
mod waiting;

pub use def_cut::Graph;
pub use merged::{merge, merge_beside};

/// Memory was refused.
pub type Memory = std::alloc::AllocError;
