//! The bytes that have a meaning in the text.

/// Space and tab are the blanks between words.
pub const SPACE: u8 = b' ';

pub const TAB: u8 = b'\t';

/// A comment runs from here to the end of its physical line.
pub const HASH: u8 = b'#';

/// At the end of a physical line: the next one is joined to it.
pub const BACKSLASH: u8 = b'\\';

/// The first word of a line that has a vertex.
pub const VERTEX: u8 = b'v';

/// The first word of a line that has a face.
pub const FACE: u8 = b'f';

/// Between the indices of a corner, and between the numbers of a ratio.
pub const SLASH: u8 = b'/';

pub const PLUS: u8 = b'+';

pub const MINUS: u8 = b'-';

/// Before the digits of a fraction.
pub const POINT: u8 = b'.';

/// Before the exponent of a decimal.
pub const SMALL_E: u8 = b'e';

pub const LARGE_E: u8 = b'E';

pub const ZERO: u8 = b'0';
