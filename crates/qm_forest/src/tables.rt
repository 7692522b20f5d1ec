//! The tables of a forest, those that belong together as one type.

use def_forest::Label;

/// Vertices and their handles.
#[derive(Drop)]
pub(crate) struct Handles {
    /// The handle of a vertex, and its potential but for what the handle adds.
    pub(crate) hand: Vec<u32>,
    pub(crate) q: Vec<i128>,
    /// The outermost blossom of a handle, and what it adds to the potentials.
    pub(crate) top: Vec<u32>,
    pub(crate) off: Vec<i128>,
}

/// The vertices of each blossom, as a list.
#[derive(Drop)]
pub(crate) struct Lists {
    /// A vertex of the blossom, whose number is the handle of all where it is outermost.
    pub(crate) leader: Vec<u32>,
    pub(crate) first: Vec<u32>,
    pub(crate) last: Vec<u32>,
    /// How many there are, which ranks the blossoms.
    pub(crate) rank: Vec<u32>,
    /// The next vertex of a list; the last one itself, where its blossom is outermost.
    pub(crate) following: Vec<u32>,
}

/// The sets and their parts.
#[derive(Drop)]
pub(crate) struct Rings {
    pub(crate) up: Vec<u32>,
    pub(crate) after: Vec<u32>,
    pub(crate) joint: Vec<u32>,
    pub(crate) head: Vec<u32>,
    pub(crate) parts: Vec<u32>,
}

/// The vertices whose blossoms got a place in the tree in this search, each once.
#[derive(Drop)]
pub(crate) struct Trail {
    pub(crate) vertices: Vec<u32>,
    pub(crate) touched: Vec<bool>,
}

/// The weights of the blossoms, without what the shifts of this search changed of them, `delta` in all.
#[derive(Drop)]
pub(crate) struct Weights {
    pub(crate) base: Vec<i128>,
    pub(crate) delta: i128,
}

/// Where the outermost blossoms stand, how they are matched, and how they hang on each other.
#[derive(Drop)]
pub(crate) struct Tree {
    pub(crate) label: Vec<Label>,
    pub(crate) mate: Vec<Option<u32>>,
    pub(crate) link: Vec<u32>,
    pub(crate) root: Option<u32>,
    /// Where each dart of the graph begins, so that mates and joints can be followed without it.
    pub(crate) near: Vec<u32>,
}
