//! Lengths in space: square roots, rounded down, the network of a layout for what new lengths aim at, and the shares by
//! which new points are spaced.
#![tactic(auto)]

mod aims;
mod law;
mod lengths;
mod measures;
mod network;
mod roots;
mod shares;
mod start;
mod sums;
mod wishes;

pub use aims::{edge_fit, fit_settings};
pub use def_metric::MetricFail;
pub use law::{root_law, start_law};
pub use network::net_for;
pub use roots::root;
pub use shares::shares_of;
pub use start::old_start;
