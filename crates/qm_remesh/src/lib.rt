//! The lengths that a remesh keeps: least ones for the floor that was given, or for floors that rise where they must.
#![tactic(auto)]

mod fitted;
mod keeping;
mod prices;
mod rounds;
mod sized;

pub use def_metric::SizeFail;
pub use def_remesh::{Kept, LayoutFail};
pub use fitted::keep_fit;
pub use keeping::{keep, keep_solved};
pub use qm_write::Remesh;
pub use sized::keep_sized;
