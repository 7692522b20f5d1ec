//! Reading the `l` lines of a text, a mark for each dart of its mesh, and its `#w` lines, a wish for each; or the first
//! line that is refused.

#![tactic(auto)]

mod chain;
mod corners;
mod ends;
mod lines;
mod said;
mod wishes;
mod words;

pub use def_marks::MarkFail;
pub use lines::read_marks;
pub use wishes::read_wishes;

/// Memory was refused.
pub type Memory = std::alloc::AllocError;
