//! Indices of `v` lines.

/// What a word says as an index of a `v` line.
#[derive(Clone, Copy, Debug, PartialEq, Eq)]
pub enum Index {
    /// The number of the `v` line, from 1.
    Vertex { k: u32 },
    /// An index that names no `v` line.
    Out,
    Malformed,
}
