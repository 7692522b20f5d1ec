//! Layouts of a mesh: patches whose four sides are made of arcs between nodes. Types and definitions alone.
#![tactic(auto)]

mod tmesh;

pub use tmesh::{Side, SideArc, TArc, TMesh};
