//! The mesh that is written anew: its soup, its text, and the tables that number and place its points. No algorithm is
//! here.
#![tactic(auto)]

mod fail;
mod kept;
mod limits;
mod new_mesh;
mod places;
mod shares;
mod tables;

pub use fail::StitchFail;
pub use kept::{Kept, LayoutFail};
pub use limits::{EDGE_SHARE, MAX_NEW_FACES, MAX_SHARE};
pub use new_mesh::NewMesh;
pub use places::{PlaceTables, Rim, Spaced};
pub use shares::DartShares;
pub use tables::{RunStarts, Tables};
