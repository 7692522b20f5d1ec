//! A least fractional perfect matching of a graph: edges and odd cycles, and numbers that show it to be least.
//!
//! It is found by shortest ways from free vertices, one tree at a time: a way ends at a free vertex, at an odd cycle,
//! which it breaks, or where it closes one. The numbers are a wish for the first dual of a matching, and the edges, odd
//! cycles broken, are those to match first. Nothing is promised of them but that there is a number for each vertex: who
//! begins with the numbers has to make them feasible, and who matches the edges has to test them. A mistake here costs
//! time and never a wrong answer.
#![tactic(auto)]

mod cycles;
mod ends;
mod exits;
mod fraction;
mod paths;
mod search;
mod vertices;

pub use fraction::{Fraction, least_fraction};

/// Want of memory.
pub type Memory = std::alloc::AllocError;
