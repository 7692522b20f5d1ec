//! A mesh that is made anew.

/// A new mesh: how many vertices it has, and its faces by the numbers of their corners, counter-clockwise.
#[derive(Debug, Drop)]
pub struct NewMesh {
    pub vertices: u32,
    pub faces: Vec<[u32; 4]>,
}
