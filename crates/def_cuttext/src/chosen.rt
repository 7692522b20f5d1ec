//! How a cut is chosen.

use def_patches::{Keep, Patches};

/// How a cut is chosen whose patches are told as grids.
#[derive(Clone, Copy, Debug, PartialEq, Eq)]
pub struct Chosen {
    pub keep: Keep,
    pub patches: Patches,
}
