//! A first dual for a matching: numbers that are feasible, and as near to given ones as is easily had.
#![tactic(auto)]

mod costs;
mod initial;

pub use costs::least_costs;
pub use initial::{MAX_WISH, Memory, initial_dual};
