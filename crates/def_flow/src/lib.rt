//! What a network, its matching graph and a certificate are: types and definitions alone.
#![tactic(auto)]

mod cert;
mod gadget;
mod limits;
mod net;
mod units;

pub use cert::{Cert, CertVerdict};
pub use gadget::Gadget;
pub use limits::{
    MAX_FLOOR, MAX_LENGTH, MAX_OLD, MAX_SCALE, MAX_STEP, MAX_SUM, MAX_TANGLE, MAX_WEIGHT,
};
pub use net::{Arc, End, Net, Settings, Weight};
pub use units::ArcUnit;
