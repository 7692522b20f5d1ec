//! Tables that number the points and the faces of a layout with lengths.

use std::alloc::Global;

/// Where runs begin that are laid end to end, and where the last one ends.
#[derive(Debug, Drop)]
pub struct RunStarts {
    pub begin: Vec<u32>,
}

/// The lengths of the arcs, and where their inner points, those of the patches, the cells of the patches and the arcs
/// on each side begin.
#[derive(Debug, Drop)]
pub struct Tables {
    pub nodes: u32,
    pub lengths: Vec<u32>,
    pub along: RunStarts,
    pub inside: RunStarts,
    pub cells: RunStarts,
    pub sides: Vec<[RunStarts; 4]>,
}
