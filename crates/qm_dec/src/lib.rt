//! Decimals, ratios and counts: their words read exactly, the canonical text of a number of millionths.

#![tactic(auto)]

mod law;
mod parts;
mod plain;
mod ratio;
mod read;
mod size;
mod write;

pub use def_text::{DecFail, Micro};
pub use law::canonical_law;
pub use ratio::{read_count, read_ratio};
pub use read::read_micro;
pub use write::write_micro;
