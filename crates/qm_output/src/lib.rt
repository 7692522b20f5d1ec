//! Where a text goes, piece by piece: through a buffer to a sink, into memory, or against bytes that are given.
#![tactic(auto)]

mod buffer;
mod comparison;
mod memory;
mod output;

pub use buffer::{Buffer, Room};
pub use comparison::Comparison;
pub use def_output::Stopped;
pub use memory::MemText;
pub use output::Output;
