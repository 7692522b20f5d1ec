//! Words and decimal numbers put into texts.
#![tactic(auto)]

mod line;
mod text;

pub use line::{Line, line_of, numbered_line, push_integer, push_numbered};
pub use text::{push_number, push_signed, push_spaced};

/// Want of memory.
pub type Memory = std::alloc::AllocError;
