//! A rectangular patch of a cut mesh.

/// A grid of `w` by `h` cells. `cells` has their south darts, row by row from the south, from west to east.
#[derive(Debug, Drop)]
pub struct Patch {
    pub w: u32,
    pub h: u32,
    pub cells: Vec<u32>,
}
