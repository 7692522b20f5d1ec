//! Where a blossom stands in the tree, and what an edge is good for.

/// Where an outermost blossom stands: at an even or at an odd distance from the root of the tree, or outside it.
#[derive(Clone, Copy, Debug, PartialEq, Eq)]
pub enum Label {
    Outer,
    Inner,
    Outside,
}

/// What an edge is good for: the step of the tree that it allows.
#[derive(Clone, Copy, Debug, PartialEq, Eq)]
pub enum EdgeKind {
    /// Its load is below twice its cost.
    Loose,
    /// It leads from an outer blossom to an unmatched one outside the tree.
    Augment,
    /// It leads from an outer blossom to a matched one outside the tree.
    Grow,
    /// It joins two outer blossoms.
    Shrink,
    Idle,
}
