//! Meshes that are made from a number.
#![tactic(auto)]

mod steps;

pub use def_gen::MAX_BLOCKS;
pub use def_text::Soup;
pub use steps::steps_mesh;

/// Want of memory.
pub type Memory = std::alloc::AllocError;
