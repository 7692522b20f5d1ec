//! What a search keeps beside the forest.

use crate::fans::Fans;
use qm_forest::Forest;
use qm_tour::Tour;

/// A forest, and the keys of what may happen to it.
#[derive(Drop)]
pub(crate) struct Search {
    pub(crate) forest: Forest,
    /// A leaf for each edge, and then one for each set: by how much the sum will have risen when something happens.
    pub(crate) tour: Tour,
    /// By how much the sum of the weights has risen since the first search began.
    pub(crate) risen: u64,
    /// The greatest weight, up or down, that there was then.
    pub(crate) first: u64,
    pub(crate) fans: Fans,
    /// A mark for each inner blossom. Others may have one.
    pub(crate) inner: Vec<bool>,
    /// Room for the vertices of a blossom, and for the parts of a set.
    pub(crate) members: Vec<u32>,
    pub(crate) parts: Vec<u32>,
}
