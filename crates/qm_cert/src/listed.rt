//! Certificates whose list has no fault.

ghost use Rattle.def_flow.specs.Admissible.{entries, AreNetLengths, IsAdmissible};
ghost use Rattle.def_flow.specs.Network.{network};
ghost use Rattle.def_matching.specs.Dual.{dual, IsSmallDual};

use def_flow::Cert;
use qm_net::LooseNet;

/// A certificate with a small dual, whose list has no fault, and the network that it is for.
#[derive(Clone, Copy)]
pub(crate) struct Listed<'n, 'c> {
    pub net: LooseNet<'n>,
    pub cert: &'c Cert,
    ghost lengths: { AreNetLengths net.whole.now.arcs.items cert.now.x.items },
    ghost admissible: { IsAdmissible (network net.whole.now) (entries cert.now.x.items) },
    ghost small: { IsSmallDual (dual cert.now.dual) },
}
