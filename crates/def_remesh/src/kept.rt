//! The lengths that a remesh keeps, and why a layout is not remeshed.

use def_certtext::Certs;
use def_flow::Cert;
use std::alloc::AllocError;
use thiserror::Error;

/// The lengths by which a new mesh is too fine.
#[derive(Debug, Drop)]
pub enum Kept {
    /// Each is this multiple of the old one.
    Multiple { by: u32 },
    /// They are least, as certificates show.
    Least { certs: Certs },
}

/// Why a layout is not remeshed.
#[derive(Debug, Drop, Error)]
pub enum LayoutFail {
    #[error("tangled: {count}")]
    Tangled { count: u64 },
    #[error("too fine: {faces} faces")]
    TooFine { faces: u128, kept: Kept },
    #[error("doubled edge: {u} {v}")]
    Doubled { u: u32, v: u32, cert: Cert },
    #[error("out of memory")]
    Memory,
}

impl From<AllocError> for LayoutFail {
    ghost use Rattle.std.specs.Prelude.{◌≡◌};
    ghost use Rattle.def_remesh.specs.declared.kept.LayoutFail.TheVariants as layout_fail;

    ghost from_gives = { λ _ e. e ≡ layout_fail.Memory };

    fn from(_: AllocError) -> LayoutFail {
        LayoutFail::Memory
    }
}
