//! Why there is no new mesh.

use std::alloc::AllocError;
use thiserror::Error;

/// Why a layout with lengths has no new mesh.
#[derive(Clone, Copy, Debug, PartialEq, Eq, Error)]
pub enum StitchFail {
    /// So many faces are more than the limit.
    #[error("{faces} faces")]
    TooFine { faces: u128 },
    /// Two edges join these vertices, or both ends of one are the same vertex.
    #[error("doubled edge {u} {v}")]
    Doubled { u: u32, v: u32 },
    #[error("out of memory")]
    Memory,
}

impl From<AllocError> for StitchFail {
    ghost use Rattle.std.specs.Prelude.{◌≡◌};
    ghost use Rattle.def_remesh.specs.declared.fail.StitchFail.TheVariants.{Memory};

    ghost from_gives = { λ _ e. e ≡ Memory };

    fn from(_: AllocError) -> StitchFail {
        StitchFail::Memory
    }
}
