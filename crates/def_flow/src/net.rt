//! Networks of arcs between nodes, and what lengths are wanted of them.

/// How the arcs are weighed: all alike, or by their old lengths.
#[derive(Clone, Copy, Debug, PartialEq, Eq)]
pub enum Weight {
    Plain,
    Length,
}

/// What a remesh was asked for: the scale `p / q`, the least length of an arc, and the weights.
#[derive(Clone, Copy, Debug, PartialEq, Eq)]
pub struct Settings {
    pub p: u32,
    pub q: u32,
    pub floor: u32,
    pub weight: Weight,
}

/// One end of an arc: the node at which it counts, on the plus or on the minus side.
#[derive(Clone, Copy, Debug, PartialEq, Eq)]
pub struct End {
    pub node: u32,
    pub plus: bool,
}

/// An arc with one or two ends, its old length, the weight of its deviation, and the least length wanted of it.
#[derive(Clone, Copy, Debug, PartialEq, Eq)]
pub struct Arc {
    pub left: End,
    pub right: Option<End>,
    pub old: u32,
    pub weight: u32,
    pub floor: u32,
}

/// A bidirected network: whole lengths of at least the floors of the arcs are wanted, with equal sums on both sides
/// of each node, and as near to `p / q` times the old lengths as can be.
#[derive(Debug, Drop)]
pub struct Net {
    pub nodes: u32,
    pub arcs: Vec<Arc>,
    pub p: u32,
    pub q: u32,
}
