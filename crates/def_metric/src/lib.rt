//! Lengths in space: whole square roots, how long the arcs of a layout are, and the lengths that are wanted of them
//! where new edges are to have a given length.
#![tactic(auto)]

mod fail;
mod limits;

pub use fail::{MetricFail, SizeFail};
pub use limits::{EDGE_PARTS, MAX_TARGETS};
