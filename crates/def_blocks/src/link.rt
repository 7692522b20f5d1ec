//! What lies on the other side of a part of a block's side.

/// A side of a block, counter-clockwise.
#[derive(Clone, Copy, Debug, PartialEq, Eq)]
pub enum SideName {
    South,
    East,
    North,
    West,
}

/// The points `from` to `from + len` of a side are the points from the last number of `other` on of another side, the
/// other way round: it has the block, its side and the least of the points there. On the boundary there is none.
/// Points count from 0, counter-clockwise along the side.
#[derive(Clone, Copy, Debug, PartialEq, Eq)]
pub struct Link {
    pub side: SideName,
    pub from: u64,
    pub len: u64,
    pub other: Option<(u32, SideName, u64)>,
}
