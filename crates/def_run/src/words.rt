//! Why words are no command.

use std::alloc::AllocError;
use thiserror::Error;

/// Why no command was read.
#[derive(Clone, Copy, Debug, PartialEq, Eq, Error)]
pub enum WordsFail {
    #[error("not an accepted line")]
    Usage,
    #[error("out of memory")]
    Memory,
}

impl From<AllocError> for WordsFail {
    ghost use Rattle.std.specs.Prelude.{◌≡◌};
    ghost use Rattle.def_run.specs.declared.words.WordsFail.TheVariants as words_fail;

    ghost from_gives = { λ _ e. e ≡ words_fail.Memory };

    fn from(_: AllocError) -> WordsFail {
        WordsFail::Memory
    }
}
