//! The texts of a chosen cut: its layout with all vertices of its arcs, and its grids. Types and definitions alone.

#![tactic(auto)]

mod chosen;

pub use chosen::Chosen;
