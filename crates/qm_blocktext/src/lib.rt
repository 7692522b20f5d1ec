//! Puts the text of the blocks of a mesh, or of the grids of a chosen cut: of each its size, its points and its links.
//! It goes out line by line, wherever the text goes.
#![tactic(auto)]

mod arcs;
mod blocks;
mod line;
mod links;
mod points;
mod text;

pub use blocks::Blocks;
pub use def_cuttext::Chosen;
pub use links::links_by;
pub use text::{block_text, put_blocks};
