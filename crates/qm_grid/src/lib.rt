//! The rectangular patches of a full cut: each class of faces is laid out as a grid, row by row from its least corner.

#![tactic(auto)]

mod by_face;
mod cutting;
mod grid;
mod heads;
mod marks;
mod row;

pub use by_face::patches;
pub use cutting::Cutting;
pub use def_cut::{Graph, Patch};

/// Memory was refused.
pub type Memory = std::alloc::AllocError;
