//! The greatest sizes of a new mesh, and shares of old edges.

/// The share of an old edge for which none is said.
pub const EDGE_SHARE: u64 = 1000;

/// Each share is below that.
pub const MAX_SHARE: u64 = 1 << 62;

/// The faces of a new mesh.
pub const MAX_NEW_FACES: u32 = 2_097_152;
