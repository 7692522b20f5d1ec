//! Patches as structured blocks: the links between their sides, and which points these join.
#![tactic(auto)]

mod law;
mod linking;
mod measured;
mod spots;

pub use law::{linked_points_law, mutual_law, symmetric_law, two_links_law};
pub use linking::links;
