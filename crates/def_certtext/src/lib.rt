//! The text of a certificate: its head line and the lines of lengths, of the dual's numbers and of its sets.
#![tactic(auto)]

mod certs;

pub use certs::{Certs, Rise, Rising, Round, Terms};
use def_flow::Settings;
use std::alloc::AllocError;
use thiserror::Error;

/// `x`, before a length.
pub const LENGTH: u8 = b'x';

/// `y`, before the number of a vertex of the matching graph.
pub const DUAL_VERTEX: u8 = b'y';

/// `s`, before the number of a set.
pub const SET: u8 = b's';

/// `f`, before the floor of the certificate that follows.
pub const FLOOR: u8 = b'f';

/// `r`, before an arc and the floor to which its floor rises.
pub const RISE: u8 = b'r';

/// What one line of a certificate says.
#[derive(Clone, Copy, Debug, PartialEq, Eq)]
pub enum CertLine {
    /// The length of an arc.
    Length { n: u64 },
    /// The number of a vertex of the matching graph, and its `up`.
    Vertex { number: i64, up: u32 },
    /// The number of a set, and its `up`.
    Set { number: i64, up: u32 },
    /// The lines of the certificate for this floor follow, in a text of `auto`.
    Floor { floor: u32 },
    /// The floor of an arc rises, in a text of rounds.
    Rise { rise: Rise },
}

/// What a remesh was asked for. With `auto` the floor of the settings is 1.
#[derive(Clone, Copy, Debug, PartialEq, Eq)]
pub struct Asked {
    pub settings: Settings,
    pub auto: bool,
}

/// What a written text says of how it was made.
#[derive(Debug, Drop)]
pub struct Written {
    pub asked: Asked,
    pub certs: Certs,
}

/// Why the lines are no text of a certificate. Lines count from 1.
#[derive(Clone, Copy, Debug, PartialEq, Eq, Error)]
pub enum CertFail {
    #[error("not a head line")]
    Head,
    #[error("line {line}: not a certificate line")]
    Line { line: u32 },
    #[error("out of memory")]
    Memory,
}

impl From<AllocError> for CertFail {
    ghost use Rattle.std.specs.Prelude.{◌≡◌};
    ghost use Rattle.def_certtext.specs.declared.CertFail.TheVariants.{Memory};

    ghost from_gives = { λ _ e. e ≡ Memory };

    fn from(_: AllocError) -> CertFail {
        CertFail::Memory
    }
}
