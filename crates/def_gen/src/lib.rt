//! Meshes that are made from a number, for work that is to be timed.
#![tactic(auto)]

/// The greatest number of blocks of a stepped mesh.
pub const MAX_BLOCKS: u32 = 10_000;

/// The columns of a block.
pub const BLOCK_COLUMNS: u32 = 3;

/// The height of the lowest block.
pub const LEAST_HEIGHT: u32 = 4;

/// How many heights blocks may have.
pub const HEIGHTS: u64 = 5;

/// The cells in the highest column.
pub const GREATEST_HEIGHT: u32 = 8;

/// One step of the generator multiplies by this and adds [`ADDEND`].
pub const FACTOR: u64 = 1_103_515_245;

pub const ADDEND: u64 = 12_345;

/// The states of the generator are below this.
pub const STATES: u64 = 2_147_483_648;

/// The last bits of a state, below this, do not decide a height.
pub const LOW_STATES: u64 = 65_536;
