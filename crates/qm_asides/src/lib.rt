//! What the lines of a text say beside its mesh: the edges that are marked, and the lengths that are wished for.
#![tactic(auto)]

mod asides;
mod marks;

pub use asides::{Asides, read_asides, read_kept};
pub use marks::text_marks;
