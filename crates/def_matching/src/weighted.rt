//! Graphs with costs, duals, and the verdict on a dual.

/// An edge between two vertices, with its cost. Two edges may have the same ends.
#[derive(Clone, Copy, Debug, PartialEq, Eq)]
pub struct WEdge {
    pub u: u32,
    pub v: u32,
    pub cost: i64,
}

/// A graph with the vertices 0 to `n - 1`, whose perfect matchings are weighed by their edges' costs.
#[derive(Debug, Drop)]
pub struct WGraph {
    pub n: u32,
    pub edges: Vec<WEdge>,
}

/// A dual of a graph with `n` vertices: a number `y` for each vertex, and nested sets with a number `z` each.
///
/// With `m` sets, `up` has `n + m` entries, first those of the vertices and then those of the sets. An entry
/// names the smallest set around its vertex or set, from 1 to `m`, or is 0 where there is none.
#[derive(Debug, Drop)]
pub struct Dual {
    pub y: Vec<i64>,
    pub z: Vec<i64>,
    pub up: Vec<u32>,
}

/// What a dual is worth, or the first thing that is wrong with it. Sets and edges are numbered from 0.
#[derive(Clone, Copy, Debug, PartialEq, Eq)]
pub enum Verdict {
    /// Each perfect matching has twice its cost at least `sum`.
    Yes { sum: i128 },
    /// `y` or `up` has not as many entries as it should, or the entry of `up` at `index` is out of range.
    Shape { index: u32 },
    /// The set holds an even number of vertices, or fewer than three.
    Even { set: u32, size: u32 },
    /// The set's `z` is below 0.
    Negative { set: u32 },
    /// The edge's load is above `cost`, which is twice its cost.
    Short { edge: u32, load: i128, cost: i128 },
}
