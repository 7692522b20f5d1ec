//! The matching graph of a list of lengths: built from the list, with a matching for each list nearby, and back.
#![tactic(auto)]

mod boxes;
mod build;
mod copies;
mod edges;
mod layout;
mod lengths;
mod marks;
mod matching;
mod plan;
mod rim;
mod rim_marks;
mod states;
mod units;

pub use build::graph_of;
pub use def_flow::Gadget;
pub use lengths::lengths_of;
pub use matching::matching_of;

/// Want of memory.
pub type Memory = std::alloc::AllocError;
