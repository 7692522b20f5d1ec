//! The greatest sizes and numbers of a text.

/// The bytes of a text.
pub const MAX_BYTES: u32 = 536_870_912;

/// The bytes of a logical line, without the ends of its physical lines.
pub const MAX_LINE: usize = 65_536;

/// The `v` lines of a text.
pub const MAX_V_LINES: u32 = 2_097_152;

/// The `f` lines of a text.
pub const MAX_F_LINES: u32 = 1_048_576;

/// The bytes of a decimal.
pub const MAX_DECIMAL: usize = 64;

/// The absolute value of a coordinate, in millionths.
pub const MAX_MICRO: u64 = 999_999_999_999_999;

/// Either number of a ratio.
pub const MAX_PART: u32 = 1000;
