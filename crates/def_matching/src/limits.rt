//! The bounds of what the calls over graphs and duals take.

/// The greatest number of vertices: 2^25.
pub const MAX_VERTICES: u32 = 33_554_432;

/// The greatest number of edges: 2^30.
pub const MAX_EDGES: u32 = 1_073_741_824;

/// The greatest number of sets: 2^30.
pub const MAX_SETS: u32 = 1_073_741_824;

/// The numbers of a dual are below this in absolute value.
pub const NUMBER_LIMIT: u64 = 1_000_000_000_000_000_000;

/// The number of vertices times the cost of an edge is at most 2^57 in absolute value, so that no sum overflows.
pub const MAX_PRODUCT: u64 = 144_115_188_075_855_872;
