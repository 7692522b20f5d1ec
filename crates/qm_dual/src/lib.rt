//! The checker of duals: whether a dual bounds each perfect matching of a graph, and what is wrong with it if not.
#![tactic(auto)]

mod check;
mod loads;
mod nest;
mod paths;
mod sizes;
mod small;
mod sums;

pub use check::{Memory, dual_ok};
pub use def_matching::{Dual, Verdict, WEdge, WGraph};
pub use small::SmallGraph;
