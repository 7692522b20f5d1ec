//! The last head line of a text, of whichever command, and the command that it names.
#![tactic(auto)]

mod last;
mod mark;
mod size;

pub use last::find_mark;
pub use mark::read_mark;
