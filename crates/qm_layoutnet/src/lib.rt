//! The network of a layout.
#![tactic(auto)]

mod arcs;
mod build;
mod ends;
mod floor;
mod law;

pub use build::net_of;
pub use def_layoutnet::NetFail;
pub use floor::{with_floor, with_rises};
pub use law::{balance_law, one_net_law, opposite_law};
