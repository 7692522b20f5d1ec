//! What a graph with costs, its perfect matchings and its duals with nested sets are: types and definitions alone.
#![tactic(auto)]

mod limits;
mod weighted;

pub use limits::{MAX_EDGES, MAX_PRODUCT, MAX_SETS, MAX_VERTICES, NUMBER_LIMIT};
pub use weighted::{Dual, Verdict, WEdge, WGraph};
