//! The checker of certificates: whether a list of lengths is least, as its dual says, and what is wrong if not.
#![tactic(auto)]

mod accept;
mod list;
mod listed;
mod sides;
mod sum;

pub use accept::accepts;
pub use def_flow::{Cert, CertVerdict};

/// Want of memory.
pub type Memory = std::alloc::AllocError;
