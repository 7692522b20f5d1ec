//! The outside as quadq sees it: where bytes come from and go to, and the lines of a text.
#![tactic(auto)]

mod ends;
mod lines;
mod memory;
mod reading;
mod streams;
mod traits;
mod words;
mod writing;

pub use def_io::{ReadFail, WriteFail};
pub use ends::{cut_line, end_of_line};
pub use lines::{Lines, line_of};
pub use memory::{MemSink, MemSource};
pub use reading::{read_buffer, read_bytes, read_lines};
pub use streams::{StdSink, StdSource};
pub use traits::{Failed, Memory, Sink, Source};
pub use words::{CommandLine, ProcessLine, words_of};
pub use writing::write_all;
