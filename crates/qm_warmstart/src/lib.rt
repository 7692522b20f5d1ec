//! A list of lengths near what is wanted, from which a descent to a least one has little left to do.
//!
//! Arcs that go on one from the other have one length, and are joined to chains. The relaxation, in which lengths may
//! be halves, is solved by blocking flows in the double cover of the network of chains, and its solution is rounded to
//! a list. Nothing is promised of that list but that there is a length for each arc: who starts from it tests it. A
//! mistake here costs time and never a wrong answer.

#![tactic(auto)]

mod blocking;
mod centering;
mod chains;
mod costs;
mod cover;
mod flow;
mod levels;
mod phases;
mod pricing;
mod repair;
mod scaling;
mod search;
mod small_net;
mod start;
mod trails;
mod worth;

pub use start::{Start, near_start};

/// Want of memory.
pub type Memory = std::alloc::AllocError;
