//! How targets are counted, and how great they may be.

/// Targets are counted in parts of an edge: so many make one.
pub const EDGE_PARTS: u32 = 1000;

/// The greatest sum of the targets of all arcs, in parts of an edge.
pub const MAX_TARGETS: u32 = 4_000_000_000;
