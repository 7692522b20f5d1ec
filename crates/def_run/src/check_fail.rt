//! Why `check` accepts nothing, and `map` writes none.

ghost use Rattle.std.specs.Prelude.{◌≡◌};
ghost use Rattle.def_run.specs.declared.check_fail.CheckFail.TheVariants.{Memory as OutOfMemory};

use crate::answer::Why;
use def_marks::MarkFail;
use def_mesh::Place;
use def_text::{ObjFail, Soup};
use std::alloc::AllocError;
use thiserror::Error;

/// Why a text is no pair, or has no map: its old text is refused, or what stands behind it is not accepted.
#[derive(Debug, Drop, Error)]
pub enum CheckFail {
    /// What stands behind the old text is no text that is written for it.
    #[error("not accepted")]
    NotAccepted { why: Why },
    /// The old text has no soup. The refusal is never want of memory.
    #[error("the old text: {fail}")]
    Old { fail: ObjFail },
    /// The faces of its soup are no manifold, first at this place.
    #[error("the old text: no manifold")]
    NotManifold { place: Place, soup: Soup },
    /// One of the lines beside its mesh is refused, where `crease` and `fit` read them. The refusal is never want of
    /// memory.
    #[error("the old text: {fail}")]
    Marks { fail: MarkFail },
    /// The tangle number of its network is above the limit.
    #[error("tangled: {count}")]
    Tangled { count: u64 },
    /// The lengths that `size` and `fit` want of its arcs add up to more than the limit.
    #[error("far: {sum}")]
    Far { sum: u128 },
    #[error("out of memory")]
    Memory,
}

impl From<AllocError> for CheckFail {
    ghost from_gives = { λ _ e. e ≡ OutOfMemory };

    fn from(_: AllocError) -> CheckFail {
        CheckFail::Memory
    }
}
