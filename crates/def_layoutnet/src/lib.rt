//! The network of a layout: what its lengths have to keep. Types and definitions alone.
#![tactic(auto)]

use std::alloc::AllocError;
use thiserror::Error;

/// Why a layout has no network.
#[derive(Clone, Copy, Debug, PartialEq, Eq, Error)]
pub enum NetFail {
    /// The tangle number is above the greatest for which a matching graph is built.
    #[error("the tangle number is {count}")]
    Tangled { count: u64 },
    #[error("out of memory")]
    Memory,
}

impl From<AllocError> for NetFail {
    ghost use Rattle.std.specs.Prelude.{◌≡◌};
    ghost use Rattle.def_layoutnet.specs.declared.NetFail.TheVariants.{Memory};

    ghost from_gives = { λ _ e. e ≡ Memory };

    fn from(_: AllocError) -> NetFail {
        NetFail::Memory
    }
}
