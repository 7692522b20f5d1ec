//! The outside: the physical lines of a text, the bytes that streams give and take, and the counts of their faults.
#![tactic(auto)]

mod fails;

pub use fails::{ReadFail, WriteFail};

/// LF, the end of a physical line.
pub const LINE_FEED: u8 = b'\n';

/// CR, which belongs to a line's end where it stands before it.
pub const CARRIAGE_RETURN: u8 = b'\r';
