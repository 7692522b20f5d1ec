//! What is kept of a layout that is remeshed.

ghost use Rattle.std.specs.Prelude.{◌≡◌};
ghost use Rattle.def_certtext.specs.CertLines.{certificates_of, lists_of, used};

use def_certtext::{Certs, Terms};
use def_flow::Cert;
use qm_certtext::used_cert;
use qm_stitch::Numbering;

/// What is kept of a layout that is remeshed on these terms.
#[derive(Debug, Drop)]
pub struct Remesh {
    /// What the lengths are found by.
    pub terms: Terms,
    /// The certificates: those before the last have lengths that double an edge, for which floors rise.
    pub certs: Certs,
    /// The numbers of the points and faces of the new mesh, at the lengths that are used.
    pub numbering: Numbering,
}

impl Remesh {
    /// The certificate whose lengths are used.
    pub fn used_cert(&self) -> &Cert
        ensures { lists_of result.now ≡ used (certificates_of self.now.certs) }
    {
        used_cert(&self.certs)
    }
}
