//! The first fault of a list.

ghost use Rattle.std.specs.Prelude.{◌≡◌, ℕ, ◌^◌, ◌<◌, ◌≤◌, length, slice_index, IfOk};
ghost use Rattle.def_flow.specs.Network.{network};
ghost use Rattle.qm_cert.specs.Faults.{compared_verdict, list_verdict, unequal_verdict};

use crate::sides::{Sides, first_below, first_difference, side_sums};
use def_flow::{CertVerdict, MAX_LENGTH};
use qm_net::{BoundedNet, Lengths};
use std::alloc::{AllocError, Global};

/// The first fault of a list: lengths are missing or too many, an arc is shorter than its floor, or the sides of a
/// node have unequal sums. Linear.
pub(crate) fn list_fault(
    alloc: Global,
    net: &BoundedNet,
    x: &[u64],
) -> Result<Option<CertVerdict>, AllocError>
    requires few { length x.now < 2 ^ 32 }
    requires short { (k : ℕ) → k < length x.now → slice_index x.now k ≤ MAX_LENGTH }
    ensures verdict { IfOk result (λ o. o ≡ list_verdict (network net.now.whole.now) x.now) }
{
    if x.len() != net.whole.arcs.len() {
        return Ok(Some(CertVerdict::Count {
            arcs: net.whole.arcs.len() as u32,
            given: x.len() as u32,
        }));
    }
    let lengths = Lengths { net: *net, x };
    if let Some(k) = first_below(&lengths) {
        return Ok(Some(CertVerdict::Below {
            arc: k as u32,
            length: x[k],
        }));
    }
    unequal_sides(alloc, &lengths)
}

/// The least node whose sides have unequal sums, with these.
fn unequal_sides(alloc: Global, lengths: &Lengths) -> Result<Option<CertVerdict>, AllocError>
    ensures { IfOk result (λ o. o ≡ unequal_verdict (network lengths.now.net.whole.now) lengths.now.x.now) }
{
    let plus = side_sums(alloc, lengths, true)?;
    let minus = side_sums(alloc, lengths, false)?;
    let sides = Sides {
        plus: &plus,
        minus: &minus,
    };
    Ok(difference(&sides))
}

/// The least node whose sides have unequal sums, with both sums.
fn difference(sides: &Sides) -> Option<CertVerdict>
    ensures { result ≡ compared_verdict sides.now.plus.now sides.now.minus.now }
{
    match first_difference(sides) {
        Some(v) => Some(CertVerdict::Unequal {
            node: v as u32,
            plus: sides.plus[v],
            minus: sides.minus[v],
        }),
        None => None,
    }
}
