//! The cut and the aim of a fit, and how its new points are spaced.

use def_flow::Weight;
use def_patches::{Keep, Patches};
use def_text::Micro;

/// The greatest wish for an edge, in thousandths.
pub const MAX_WISH: u32 = 1_000_000;

/// What the new lengths of arcs aim at.
#[derive(Clone, Copy, Debug, PartialEq, Eq)]
pub enum Aim {
    /// The old lengths, times p over q.
    Scale { p: u32, q: u32 },
    /// New edges of this length in space.
    Edge { edge: Micro },
    /// What the lines of the text wish for their edges.
    Wishes,
}

/// How the new points of an arc are spaced.
#[derive(Clone, Copy, Debug, PartialEq, Eq)]
pub enum Spacing {
    /// Evenly along its old edges.
    Even,
    /// So that each new edge gets an equal part of what is wished for the old ones.
    Wished,
}

/// A cut, what the lengths of its arcs aim at, the least length of an arc, how arcs are weighed, and how their new
/// points are spaced. With `auto` the floor is 1, and rises for the arcs along doubled edges.
#[derive(Clone, Copy, Debug, PartialEq, Eq)]
pub struct Fit {
    pub keep: Keep,
    pub patches: Patches,
    pub aim: Aim,
    pub floor: u32,
    pub auto: bool,
    pub weight: Weight,
    pub spacing: Spacing,
}
