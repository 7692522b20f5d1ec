//! What ends a doubled pair: the arcs along one of its edges get longer.

/// Arcs along which an edge runs: the one on which it lies, or those on a side of its patch.
#[derive(Clone, Copy, Debug, PartialEq, Eq, PartialOrd, Ord)]
pub enum Run {
    Arc(usize),
    Side { patch: usize, side: usize },
}

/// Arcs along an edge of a doubled pair, which is told by its key, and what one edge more costs on each that is short.
#[derive(Clone, Copy, Debug, PartialEq, Eq, PartialOrd, Ord)]
pub struct Remedy {
    pub(crate) key: u64,
    pub(crate) price: i128,
    pub(crate) run: Run,
}
