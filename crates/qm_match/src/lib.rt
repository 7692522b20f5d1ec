//! Least perfect matchings of weighted graphs, with duals that show them to be least.
#![tactic(auto)]

mod fans;
mod first;
mod keys;
mod matcher;
mod mending;
mod perfect;
mod search;
mod shown;
mod start;
mod steps;
mod turns;
mod weights;

pub use matcher::{Matcher, best, best_from, best_near};
pub use perfect::is_perfect;
pub use qm_initial::MAX_WISH;
pub use shown::cost_of;

/// Want of memory.
pub type Memory = std::alloc::AllocError;
