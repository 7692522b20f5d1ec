//! The matching graph of a list, with what is needed to read a list off a matching.

use def_matching::WGraph;

/// The matching graph of a list of lengths.
///
/// Each arc has `cap` units of the length `step`, from the length `low` on. A perfect matching of the graph tells
/// for each unit whether it is on, and so a list of lengths.
#[derive(Debug, Drop)]
pub struct Gadget {
    pub graph: WGraph,
    pub low: Vec<u64>,
    pub cap: Vec<u32>,
    pub step: u64,
}
