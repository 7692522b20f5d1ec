//! What a forest of blossoms over a graph is, when it is valid, what its steps do, and when a matcher is made for a
//! graph: types and definitions alone.
#![tactic(auto)]

mod kinds;

pub use kinds::{EdgeKind, Label};
