//! Reading words byte by byte: places of bytes, signs, digits and the numbers that they write.
#![tactic(auto)]

mod bytes;
mod digits;
mod number;

pub use bytes::{behind_first, find_byte};
pub use digits::{are_digits, is_negative, is_number, unsigned};
pub use number::read_number;
