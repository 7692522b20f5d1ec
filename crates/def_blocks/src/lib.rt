//! Patches as structured blocks, and the links between their sides. Types and definitions alone.
#![tactic(auto)]

mod link;

pub use link::{Link, SideName};
