//! The units of an arc.

use crate::net::End;

/// One unit of an arc: a stretch of its length that may be on or off. It has the ends of its arc, and costs
/// the change of the arc's deviation over the stretch.
#[derive(Clone, Copy, Debug, PartialEq, Eq)]
pub struct ArcUnit {
    pub left: End,
    pub right: Option<End>,
    pub cost: i64,
}
