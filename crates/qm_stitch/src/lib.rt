//! The mesh that a layout gives at new lengths: a numbering of its points, each face by its number, and where an edge
//! is doubled, so that there is none, with the arcs whose floors have to rise then.
#![tactic(auto)]

mod border;
mod build;
mod cheapest;
mod count;
mod doubled;
mod face;
mod keyed;
mod marked;
mod numbered;
mod numbering;
mod planning;
mod point;
mod priced;
mod remedies;
mod remedy;
mod repeat;
mod rim;
mod rises;
mod safe;
mod size;
mod stitching;
mod stretched;
mod tight;

pub use def_remesh::{NewMesh, StitchFail};
pub use numbered::Numbered;
pub use numbering::Numbering;
pub use planning::plan;
pub use rises::{are_needed, needed_rises};
pub use stitching::stitch;
