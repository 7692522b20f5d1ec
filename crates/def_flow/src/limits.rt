//! The bounds of what the calls over networks take.

/// The greatest weight of an arc.
pub const MAX_WEIGHT: u32 = 1000;

/// The greatest numerator and denominator of a scale.
pub const MAX_SCALE: u32 = 1000;

/// The greatest floor.
pub const MAX_FLOOR: u32 = 3;

/// The greatest old length of an arc.
pub const MAX_OLD: u32 = 4_000_000_000;

/// The greatest sum of the old lengths of an even network.
pub const MAX_SUM: u32 = 8_388_608;

/// The greatest length that a list may hold.
pub const MAX_LENGTH: u64 = 1_000_000_000_000;

/// The greatest tangle number of a network whose matching graph is built.
pub const MAX_TANGLE: u64 = 33_554_432;

/// The longest step of a unit.
pub const MAX_STEP: u64 = 4096;
