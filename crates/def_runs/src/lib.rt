//! What the runs of a mesh are: straight lines of darts over regular inner vertices.

#![tactic(auto)]

/// The runs of a mesh, in order of their least darts. Darts, runs and places are numbered from 0.
#[derive(Debug, Drop)]
pub struct RunTable {
    /// The run of each dart.
    pub run: Vec<u32>,
    /// The place of each dart in its run.
    pub at: Vec<u32>,
    /// How many darts each run has.
    pub len: Vec<u32>,
    /// Whether each run is closed: its first dart follows its last.
    pub closed: Vec<bool>,
}
