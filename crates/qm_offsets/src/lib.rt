//! Where arcs of given lengths lie on the sides of patches: tables of starts, and searches in them.
#![tactic(auto)]

mod lengths;
mod sides;
mod sizes;
mod spot;
mod starts;
mod summed;

pub use lengths::{inner_points, short_lengths};
pub use sides::{side_of, side_tables, starts_on};
pub use sizes::size_on;
pub use spot::{spot_in, spot_near};
pub use starts::{no_starts, push_start};
