//! Where a new vertex lies in the old mesh.

/// Between the ends of a dart, some of so many equal parts of the way from its beginning.
#[derive(Clone, Copy, Debug, PartialEq, Eq)]
pub struct EdgeSpot {
    pub dart: u32,
    pub some: u64,
    pub parts: u64,
}

/// In a face, so much to the east and to the north of the beginning of its south dart, in parts of 4,294,967,296.
#[derive(Clone, Copy, Debug, PartialEq, Eq)]
pub struct FaceSpot {
    pub dart: u32,
    pub s: u64,
    pub t: u64,
}

/// At an old vertex, between the ends of a dart, or in a face.
#[derive(Clone, Copy, Debug, PartialEq, Eq)]
pub enum Spot {
    AtVertex(u32),
    OnEdge(EdgeSpot),
    InFace(FaceSpot),
}
