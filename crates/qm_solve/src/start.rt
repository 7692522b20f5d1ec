//! The start of the descent: a list near what is wanted where one is found, and else one that is known.

ghost use Rattle.std.specs.Prelude.{◌≡◌, ◌≤◌, ◌↔◌, IfOk, IsTrue};
ghost use Rattle.std.specs.List.{list_all};
ghost use Rattle.def_flow.specs.Network.{network, tangle_number, IsWithinBounds};
ghost use Rattle.def_flow.specs.Accepted.{certificate};
ghost use Rattle.def_flow.specs.Admissible.{IsEven};
ghost use Rattle.def_flow.specs.Descent.{IsSolution, IsStartOf, times_old, old_multiple};
ghost use Rattle.def_flow.specs.Descent.{greatest_floor as greatest_floor_of};
ghost use Rattle.qm_solve.specs.Rounds.{is_near_arc};

use crate::Memory;
use crate::descent::descend;
use def_flow::{Arc, Cert, MAX_LENGTH, MAX_TANGLE, Net};
use qm_net::{BoundedNet, LooseNet, admissible, are_lengths, deviation};
use qm_warmstart::{Start, near_start};
use std::alloc::Global;

/// A least list of lengths of an even network, with the certificate that shows it to be least. The descent begins at a
/// list near what is wanted, where one is found, and else at a multiple of the old lengths.
pub fn solve(alloc: Global, net: &Net) -> Result<Cert, Memory>
    requires bounds { IsWithinBounds (network net.now) }
    requires even { IsEven (network net.now) }
    requires tangle { tangle_number (network net.now) ≤ MAX_TANGLE }
    ensures { IfOk result (λ cert. IsSolution (network net.now) (certificate cert)) }
{
    let start = start_of(alloc, &BoundedNet { whole: net })?;
    descend(alloc, &LooseNet { whole: net }, start)
}

/// The same for any network: where no list near what is wanted is found, the descent begins at `start`.
pub fn solve_near(alloc: Global, net: &LooseNet, start: Vec<u64>) -> Result<Cert, Memory>
    requires { IsStartOf (network net.now.whole.now) start.items }
    ensures { IfOk result (λ cert. IsSolution (network net.now.whole.now) (certificate cert)) }
{
    let start = near_or(alloc, &BoundedNet { whole: net.whole }, start)?;
    descend(alloc, net, start)
}

/// The list that `solve` starts from: one near what is wanted where that serves, and else a multiple of the old
/// lengths, which serves for each even network. The former comes with prices of the nodes, the latter with none.
pub fn start_of(alloc: Global, net: &BoundedNet) -> Result<Start, Memory>
    ensures { IsEven (network net.now.whole.now)
        → IfOk result (λ start. IsStartOf (network net.now.whole.now) start.lengths.items) }
{
    let lengths = old_multiple(alloc, net)?;
    near_or(alloc, net, lengths)
}

/// A list near what is wanted that may start the descent, with prices of the nodes, where one is found; and else this
/// list, with none.
fn near_or(alloc: Global, net: &BoundedNet, start: Vec<u64>) -> Result<Start, Memory>
    ensures { IsStartOf (network net.now.whole.now) start.items
        → IfOk result (λ near. IsStartOf (network net.now.whole.now) near.lengths.items) }
{
    if let Some(near) = near_start(alloc, net)? {
        if is_start(net, &near.lengths) {
            return Ok(near);
        }
    }
    Ok(Start {
        lengths: start,
        prices: Vec::new(alloc),
    })
}

/// The old lengths, so many times that each is at least its floor and near what is wanted. The list is admissible where
/// the old lengths are. Linear.
pub(crate) fn old_multiple(alloc: Global, net: &BoundedNet) -> Result<Vec<u64>, Memory>
    ensures { IfOk result (λ lengths. lengths.items ≡ old_multiple (network net.now.whole.now)) }
{
    let net = net.whole;
    multiple(
        alloc,
        &net.arcs,
        u64::from(greatest_floor(&net.arcs).max(net.p / net.q)),
    )
}

/// The greatest floor of the arcs. Linear.
fn greatest_floor(arcs: &[Arc]) -> u32
    ensures { result ≡ greatest_floor_of arcs.now }
{
    let mut most = 0;
    for arc in arcs {
        most = most.max(arc.floor);
    }
    most
}

/// The old lengths, so many times. Linear.
pub(crate) fn multiple(alloc: Global, arcs: &[Arc], times: u64) -> Result<Vec<u64>, Memory>
    requires { times ≤ 1000 }
    ensures { IfOk result (λ lengths. lengths.items ≡ times_old times arcs.now) }
{
    let mut lengths = Vec::with_capacity(alloc, arcs.len())?;
    for arc in arcs {
        lengths.push(times * u64::from(arc.old))?;
    }
    Ok(lengths)
}

/// Whether a list may start the descent: it is admissible, and no list of less deviation has too great a length.
pub fn is_start(net: &BoundedNet, x: &[u64]) -> bool
    ensures { IsTrue result ↔ IsStartOf (network net.now.whole.now) x.now }
{
    if !are_lengths(net.whole, x) || !admissible(net.whole, x) {
        return false;
    }
    is_near(net.whole, deviation(net.whole, x))
}

/// Whether all lengths stay in range where the deviation is no greater. Linear.
fn is_near(net: &Net, far: i128) -> bool
    ensures { result ≡ list_all (is_near_arc (network net.now) far) net.now.arcs.items }
{
    net.arcs.iter().all(|arc| stays_near(net, arc, far))
}

/// Whether the length of an arc stays in range.
fn stays_near(net: &Net, arc: &Arc, far: i128) -> bool
    ensures { result ≡ is_near_arc (network net.now) far arc.now }
{
    let wanted = u64::from(net.p) * u64::from(arc.old);
    let room = i128::from(MAX_LENGTH) * i128::from(net.q) - i128::from(wanted);
    !(room < far)
}
