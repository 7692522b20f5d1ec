//! The `l` lines of a new mesh: one for each marked arc of the layout that it was made from.
#![tactic(auto)]

mod kept;
mod lines;

pub use kept::{kept_lines, lines_between};
pub use lines::{is_marked, marked_lines};

/// Memory was refused.
pub type Memory = std::alloc::AllocError;
