//! Small networks that several tests share.

/// The network of one quad: each arc has one end.
pub(crate) const QUAD: &str = "net nodes 2 arcs 4 floor 1 scale 1/1
arc 1 1 0 + rim
arc 1 1 1 + rim
arc 1 1 0 - rim
arc 1 1 1 - rim";

/// A quad at three times its size.
pub(crate) const TREBLED: &str = "net nodes 2 arcs 4 floor 1 scale 3/1
arc 1 1 0 + rim
arc 1 1 1 + rim
arc 1 1 0 - rim
arc 1 1 1 - rim";

/// Arcs of all shapes, with both ends of one at one node.
pub(crate) const FIVE_SHAPES: &str = "net nodes 3 arcs 7 floor 1 scale 2/3
arc 5 2 0 + 1 -
arc 2 1 1 + 1 +
arc 3 3 2 - 2 -
arc 4 1 0 - 2 +
arc 3 2 1 - 1 +
arc 3 1 0 + rim
arc 2 4 2 - rim";

/// Three squares round a vertex with a flap between each two, at half their size: no dual without sets is accepted.
pub(crate) const FLAPS: &str = "net nodes 12 arcs 18 floor 1 scale 1/2
arc 3 1 0 + 3 -
arc 3 1 0 - 8 +
arc 3 1 1 + 6 +
arc 3 1 1 - 4 +
arc 3 1 2 + 5 -
arc 3 1 2 - 6 +
arc 3 1 3 + 10 +
arc 3 1 4 - 10 +
arc 3 1 5 + 8 +
arc 6 1 6 - rim
arc 2 1 7 + rim
arc 2 1 7 - rim
arc 6 1 8 - rim
arc 2 1 9 + rim
arc 2 1 9 - rim
arc 6 1 10 - rim
arc 2 1 11 + rim
arc 2 1 11 - rim";

/// A cube of three by three faces a side, at half its size.
pub(crate) const CUBE: &str = "net nodes 12 arcs 12 floor 1 scale 1/2
arc 3 1 0 + 8 +
arc 3 1 1 + 6 +
arc 3 1 0 - 4 +
arc 3 1 1 - 10 +
arc 3 1 2 + 4 -
arc 3 1 3 + 6 -
arc 3 1 2 - 8 -
arc 3 1 3 - 10 -
arc 3 1 5 + 7 -
arc 3 1 5 - 11 +
arc 3 1 7 + 9 -
arc 3 1 9 + 11 -";
