//! The certificates of a remesh, and the floors that rise between them.

use def_flow::{Cert, Settings};

/// How floors rise where lengths double an edge.
#[derive(Clone, Copy, Debug, PartialEq, Eq)]
pub enum Rising {
    /// They do not.
    Never,
    /// All to 3, at once.
    Third,
    /// By need, round after round.
    Rounds,
}

/// What lengths are found by.
#[derive(Clone, Copy, Debug, PartialEq, Eq)]
pub struct Terms {
    pub settings: Settings,
    pub rising: Rising,
}

/// An arc, from 0, and the floor to which its floor rises.
#[derive(Clone, Copy, Debug, PartialEq, Eq)]
pub struct Rise {
    pub arc: u32,
    pub floor: u32,
}

/// A certificate whose lengths double an edge, and the floors that rise for them.
#[derive(Debug, Drop)]
pub struct Round {
    pub cert: Cert,
    pub rises: Vec<Rise>,
}

/// The certificates of a remesh.
#[derive(Debug, Drop)]
pub enum Certs {
    /// The only one.
    Alone { cert: Cert },
    /// The first, whose lengths double an edge, and the one for floor 3, whose lengths are used.
    Raised { first: Cert, cert: Cert },
    /// Those of rounds, and the last, whose lengths are used.
    Risen { rounds: Vec<Round>, cert: Cert },
}
