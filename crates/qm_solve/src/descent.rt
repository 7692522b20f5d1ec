//! The descent in rounds.

ghost use Rattle.std.specs.Prelude.{◌≡◌, ◌+◌, ◌≤◌, ◌<◌, ◌*◌, None, length, IfOk, IfSome};
ghost use Rattle.def_matching.specs.Dual.{dual};
ghost use Rattle.def_flow.specs.Network.{network, tangle_number, IsWithinBounds};
ghost use Rattle.def_flow.specs.Accepted.{certificate};
ghost use Rattle.def_flow.specs.Admissible.{deviation, entries};
ghost use Rattle.def_flow.specs.Descent.{IsSolution, IsStartOf};
ghost use Rattle.def_flow.specs.declared.limits.TheConstants.{MAX_STEP, MAX_TANGLE};

use crate::Memory;
use crate::round::{Round, improve};
use def_flow::{Arc, Cert, MAX_OLD, MAX_SCALE, MAX_STEP, Net};
use def_matching::Dual;
use qm_net::{BoundedNet, LooseNet};
use qm_warmstart::Start;
use std::alloc::Global;

/// A descent on its way: an admissible list of a network, how far the next round steps, and prices of the nodes for
/// rounds of step 1, where any are known.
#[derive(Debug, Drop)]
pub struct Descent<'a> {
    pub net: LooseNet<'a>,
    pub x: Vec<u64>,
    pub step: u64,
    pub prices: Vec<i64>,
    pub ghost start: { IsStartOf (network net.whole.now) x.items },
    pub ghost steps: { (1 ≤ step) × (step ≤ MAX_STEP) },
}

/// A least list of lengths, with the certificate that shows it to be least, by a descent from an admissible list.
///
/// Where a least matching costs less than the one of the list, the descent moves to its list; where it does not, the
/// step is halved. With step 1 the dual is the certificate.
pub fn solve_from(alloc: Global, net: &Net, start: &[u64]) -> Result<Cert, Memory>
    requires bounds { IsWithinBounds (network net.now) }
    requires tangle { tangle_number (network net.now) ≤ MAX_TANGLE }
    requires start { IsStartOf (network net.now) start.now }
    ensures { IfOk result (λ cert. IsSolution (network net.now) (certificate cert)) }
{
    let start = Start {
        lengths: Vec::from_slice(alloc, start)?,
        prices: Vec::new(alloc),
    };
    descend(alloc, &LooseNet { whole: net }, start)
}

/// The descent from an admissible list.
pub(crate) fn descend(alloc: Global, net: &LooseNet, start: Start) -> Result<Cert, Memory>
    requires { IsStartOf (network net.now.whole.now) start.lengths.items }
    ensures { IfOk result (λ cert. IsSolution (network net.now.whole.now) (certificate cert)) }
{
    let mut descent = first_descent(net, start);
    loop {
        if let Some(dual) = turn(alloc, &mut descent)? {
            let Descent { x, .. } = descent;
            return Ok(Cert { x, dual });
        }
    }
}

/// A descent that has not begun. A list with prices is near a least one, and its prices are those of steps of 1, so
/// they are taken at once. Linear.
pub fn first_descent<'a>(net: &LooseNet<'a>, start: Start) -> Descent<'a>
    requires { IsStartOf (network net.now.whole.now) start.lengths.items }
    ensures { result.net.whole.now ≡ net.now.whole.now }
{
    let mut descent = Descent {
        net: *net,
        x: start.lengths,
        step: 1,
        prices: start.prices,
    };
    if descent.prices.is_empty() {
        descent.step = first_step(&descent);
    }
    descent
}

/// One round: where it finds no better list with step 1, the dual of its matching makes the list's certificate. Else
/// the list is better or the step is shorter.
pub fn turn(alloc: Global, descent: &mut Descent) -> Result<Option<Dual>, Memory>
    ensures net { descent.new.net.whole.now ≡ descent.old.net.whole.now }
    ensures done { IfOk result (λ found. IfSome found (λ d.
        IsSolution (network descent.old.net.whole.now) (record { x = descent.new.x.items; dual = dual d }))) }
    ensures nearer { IfOk result (λ found. found ≡ None
        → deviation (network descent.old.net.whole.now) (entries descent.new.x.items) + descent.new.step
        < deviation (network descent.old.net.whole.now) (entries descent.old.x.items) + descent.old.step) }
{
    match improve(alloc, descent)? {
        Round::Better { x } => descent.x = x,
        Round::Least { dual } => {
            if descent.step == 1 {
                return Ok(Some(dual));
            }
            descent.step /= 2;
        }
    }
    Ok(None)
}

/// The first step: the greatest power of two that some arc is twice as far from what is wanted. Linear.
fn first_step(descent: &Descent) -> u64
    ensures { (1 ≤ result) × (result ≤ MAX_STEP) }
{
    let net = BoundedNet {
        whole: descent.net.whole,
    };
    let mut step = 1;
    for (k, arc) in net.whole.arcs.iter().enumerate() {
        step = longer_step(step, distance(&net, arc, descent.x[k]));
    }
    step
}

/// The step, or one longer, which the distance is at least twice.
fn longer_step(step: u64, far: u64) -> u64
    requires { (1 ≤ step) × (step ≤ MAX_STEP) }
    ensures { (1 ≤ result) × (result ≤ MAX_STEP) }
{
    let mut longer = step;
    while longer <= MAX_STEP / 2 && longer <= far / 4 {
        longer *= 2;
    }
    longer
}

/// How far an arc of this length is from what is wanted of it, rounded down.
fn distance(net: &BoundedNet, arc: &Arc, length: u64) -> u64 {
    let wanted = u64::from(net.whole.p) * u64::from(arc.old) / u64::from(net.whole.q);
    length.abs_diff(wanted)
}
