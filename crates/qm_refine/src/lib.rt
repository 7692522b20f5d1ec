//! The mesh in which each edge of another is divided in so many: its lengths, its points and its text.
#![tactic(auto)]

mod lengths;
mod points;
mod text;

pub use lengths::multiples;
pub use points::refined_points;
pub use text::put_refined;
