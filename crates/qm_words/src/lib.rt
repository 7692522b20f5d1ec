//! Command lines: the command that the words after the program's name ask for.
#![tactic(auto)]

mod options;
mod read;
mod values;

pub use def_run::{Command, WordsFail};
pub use read::read_words;
