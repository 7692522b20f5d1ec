//! What is reported of a mesh and its remesh.
#![tactic(auto)]

/// The counts of a mesh with its traced graph, and the least deviation of its lengths.
#[derive(Clone, Copy, Debug, PartialEq, Eq)]
pub struct Counts {
    pub vertices: u32,
    pub edges: u32,
    pub faces: u32,
    pub riders: u32,
    pub patches: u32,
    pub arcs: u32,
    pub deviation: i128,
}
