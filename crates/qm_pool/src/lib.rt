//! A pool of nodes: all its memory is taken at once, and nodes are taken and given back without any.
#![tactic(auto)]

mod pool;

pub use pool::{Memory, Node, NodeId, Pool};
