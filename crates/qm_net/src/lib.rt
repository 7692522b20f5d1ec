//! Lists of lengths over a network: whether one is admissible, and how far it is from what is wanted.
#![tactic(auto)]

mod balance;
mod bounded;
mod bounds;
mod tangle;
mod wanted;

pub use balance::admissible;
pub use bounded::{BoundedNet, Lengths, LooseNet};
pub use bounds::{are_lengths, is_within_bounds};
pub use def_flow::{Arc, End, Net};
pub use tangle::tangle_of;
pub use wanted::{arc_deviation, deviation};

/// Want of memory.
pub type Memory = std::alloc::AllocError;
