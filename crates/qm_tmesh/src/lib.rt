//! The layout of a cut mesh: its nodes, its arcs, and the arcs on the four sides of each patch.

#![tactic(auto)]

mod arcs;
mod build;
mod names;
mod nodes;
mod runs;
mod sides;
mod uses;

pub use build::layout;
pub use def_layout::{Side, SideArc, TArc, TMesh};

/// Memory was refused.
pub type Memory = std::alloc::AllocError;
