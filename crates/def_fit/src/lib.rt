//! What `fit` is asked for: a cut, what the new lengths aim at, how new points are spaced, and the lines of a text that
//! say what is wished.

#![tactic(auto)]

mod fit;

pub use def_patches::{Keep, Patches};
pub use fit::{Aim, Fit, MAX_WISH, Spacing};
