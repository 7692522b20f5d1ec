//! Puts the text that says where the vertices and faces of a new mesh lie in the old one, line by line and without
//! memory.
#![tactic(auto)]

mod cells;
mod lines;
mod map;
mod vertices;

pub use map::put_map;
