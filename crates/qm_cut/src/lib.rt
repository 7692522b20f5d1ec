//! From a mesh to the layout that a full cut of it gives: its motorcycle graph, or the cut that is chosen.
#![tactic(auto)]

mod chosen;
mod quads;
mod traced;

pub use chosen::chosen_layout;
pub use quads::are_quads;
pub use traced::{graph_layout, layout_from, traced_layout};
