//! Laws of forests of blossoms: what the steps keep, and why a search ends. Each law is a function without a body.
#![tactic(auto)]

mod ends;
mod steps;

pub use ends::{bound_law, even_law, odd_law, rise_law};
pub use steps::{end_law, expand_law, grow_law, root_law, shift_law, shrink_law};
