//! Where the points and the faces of a new mesh lie in the old one, and the text that says it. Types and definitions
//! alone.
#![tactic(auto)]

mod home;
mod spot;

pub use home::{Home, Seen};
pub use spot::{EdgeSpot, FaceSpot, Spot};
