//! A tournament of keys: a flat tree whose root is the least of all leaves, and whose leaves are set in logarithmic
//! time.
#![tactic(auto)]

mod tour;

pub use tour::{Memory, Tour};
