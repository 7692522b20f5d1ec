//! Where a new face lies in the old mesh.

/// A point as it is seen from a face: so much to the east and to the north of the beginning of its south dart, in parts
/// of 4,294,967,296. It may lie outside.
#[derive(Clone, Copy, Debug, PartialEq, Eq)]
pub struct Seen {
    pub s: i64,
    pub t: i64,
}

/// The south dart of the old face in which a new face has its middle, and the corners of the new face as they are seen
/// from there, counter-clockwise from the south-west.
#[derive(Clone, Copy, Debug, PartialEq, Eq)]
pub struct Home {
    pub dart: u32,
    pub corners: [Seen; 4],
}
