//! Tables that tell the places of the points of a layout with lengths.

use crate::shares::DartShares;
use crate::tables::RunStarts;

/// A patch of the new mesh: its width and height, and where the parameters of its sides begin.
#[derive(Clone, Copy, Debug, PartialEq, Eq)]
pub struct Rim {
    pub wide: u32,
    pub high: u32,
    pub begin: usize,
}

/// Shares, and the parameters that they give to the inner points of the arcs, in the order of the points' numbers.
#[derive(Debug, Drop)]
pub struct Spaced {
    pub shares: DartShares,
    pub parameters: Vec<u64>,
}

/// The lengths of the arcs, where their inner points and those of the patches begin, the spacing of the former where it
/// is by shares, and the parameters of the places of all sides: south, east, north and west, patch by patch, each
/// counter-clockwise.
#[derive(Debug, Drop)]
pub struct PlaceTables {
    pub lengths: Vec<u32>,
    pub along: RunStarts,
    pub inside: RunStarts,
    pub spaced: Option<Spaced>,
    pub rims: Vec<Rim>,
    pub parameters: Vec<u64>,
}
