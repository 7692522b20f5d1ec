//! The traced graph: the edges that are cut, and what became of each rider.

/// Why a rider stopped, and where.
#[derive(Clone, Copy, Debug, PartialEq, Eq)]
pub enum Stop {
    /// It met another rider in the middle of the edge between these vertices, named in its own direction.
    Middle { from: u32, to: u32 },
    Boundary { vertex: u32 },
    Singular { vertex: u32 },
    /// Some rider had stood at the vertex before.
    Trail { vertex: u32 },
    /// It arrived at the same instant as others, and did not go on: of two at right angles one does, and nobody of two
    /// that come from opposite sides, of three or of four.
    Tie { vertex: u32 },
}

/// A rider: its first dart, how many darts it rode, and why it stopped.
#[derive(Clone, Copy, Debug, PartialEq, Eq)]
pub struct Rider {
    pub start: u32,
    pub rides: u32,
    pub stop: Stop,
}

/// The traced graph. `covered` has one entry for each dart: whether its edge is in the graph.
#[derive(Debug, Drop)]
pub struct Graph {
    pub covered: Vec<bool>,
    pub riders: Vec<Rider>,
}
