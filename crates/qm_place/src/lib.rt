//! The places of the vertices of the new mesh.
#![tactic(auto)]

mod arc_places;
mod arcs;
mod axes;
mod find;
mod grid;
mod homes;
mod old;
mod path;
mod placed;
mod places;
mod sides;
mod spacing;
mod spots;
mod walk;
mod ways;

pub use find::Near;
pub use placed::Placed;
pub use places::{Places, placer};
pub use ways::EDGE;
