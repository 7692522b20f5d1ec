//! The verdict on a certificate.

ghost use Rattle.std.specs.Prelude.{◌≡◌, ◌^◌, ◌<◌, ◌≤◌, ◌↔◌, ℕ, ℤ, length, slice_index, IfOk};
ghost use Rattle.def_flow.specs.Network.{network, IsWithinBounds, tangle_number};
ghost use Rattle.def_flow.specs.Admissible.{entries, IsLeast};
ghost use Rattle.def_flow.specs.MatchingGraph.{matching_graph};
ghost use Rattle.def_matching.specs.Dual.{dual, verdict, IsSmallDual};
ghost use Rattle.def_flow.specs.Accepted.{certificate, cert_verdict, refuse_dual, sums_verdict, IsAccepted};

use crate::Memory;
use crate::list::list_fault;
use crate::listed::Listed;
use crate::sum::sum_verdict;
use def_flow::{Cert, CertVerdict, MAX_LENGTH, MAX_TANGLE, Net};
use def_matching::Verdict;
use qm_dual::{SmallGraph, dual_ok};
use qm_gadget::graph_of;
use qm_net::{BoundedNet, LooseNet};
use std::alloc::Global;

/// The verdict on a certificate for a network. After `Yes` its list is least among all admissible lists of whole
/// numbers.
///
/// Linear in the arcs and nodes, and near linear in the edges of the matching graph and the sets of the dual.
pub fn accepts(alloc: Global, net: &Net, cert: &Cert) -> Result<CertVerdict, Memory>
    requires bounds { IsWithinBounds (network net.now) }
    requires few { length cert.now.x.items < 2 ^ 32 }
    requires short { (k : ℕ) → k < length cert.now.x.items → slice_index cert.now.x.items k ≤ MAX_LENGTH }
    requires dual { IsSmallDual (dual cert.now.dual) }
    requires tangle { tangle_number (network net.now) ≤ MAX_TANGLE }
    ensures exact { IfOk result (λ v. v ≡ cert_verdict (network net.now) (certificate cert.now)) }
    // Yes comes exactly where the certificate is accepted.
    ensures accepted { IfOk result (λ v.
        ((d : ℤ) × (v ≡ CertVerdict.Yes d)) ↔ IsAccepted (network net.now) (certificate cert.now)) }
    // After yes no admissible list of whole numbers, of any size, has a smaller deviation.
    ensures least { IfOk result (λ v.
        (d : ℤ) → v ≡ CertVerdict.Yes d → IsLeast (network net.now) (entries cert.now.x.items)) }
{
    let fault = list_fault(alloc, &BoundedNet { whole: net }, &cert.x)?;
    match fault {
        Some(verdict) => Ok(verdict),
        None => {
            let net = LooseNet { whole: net };
            let listed = Listed { net, cert };
            check_dual(alloc, &listed)
        }
    }
}

/// The verdict on a certificate whose list has no fault.
fn check_dual(alloc: Global, listed: &Listed) -> Result<CertVerdict, Memory>
    ensures { IfOk result (λ v.
        v ≡ refuse_dual
        (verdict (matching_graph (network listed.now.net.whole.now) 1 listed.now.cert.now.x.items)
        (dual listed.now.cert.now.dual))
        (sums_verdict (network listed.now.net.whole.now) (certificate listed.now.cert.now))) }
{
    let net = BoundedNet {
        whole: listed.net.whole,
    };
    let gadget = graph_of(alloc, &net, &listed.cert.x, 1)?;
    let verdict = dual_ok(
        alloc,
        &SmallGraph {
            whole: &gadget.graph,
        },
        &listed.cert.dual,
    )?;
    match verdict {
        Verdict::Yes { sum } => Ok(sum_verdict(listed, &gadget.low, sum)),
        _ => Ok(CertVerdict::Dual { verdict }),
    }
}
