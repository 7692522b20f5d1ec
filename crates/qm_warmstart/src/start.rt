//! The start: lengths and prices.

ghost use Rattle.std.specs.Prelude.{◌≡◌, ◌*◌, length, IfOk, IfSome};
ghost use Rattle.qm_warmstart.specs.Tables.{AreBelow};

use crate::Memory;
use crate::chains::{Chains, chains_of};
use crate::cover::cover_of;
use crate::flow::{Flow, first_flow};
use crate::phases::relax;
use crate::search::no_search;
use crate::small_net::SmallNet;
use crate::trails::round;
use crate::worth::prices_of;
use qm_net::BoundedNet;
use std::alloc::Global;

/// How many exits the relaxation may look at for each arc, and how many the repair: work for about as long as the
/// descent takes without a start.
const LOOKS: u32 = 8_192;

/// How many they may look at in all: some seconds of work.
const MOST_LOOKS: u32 = 268_435_456;

/// The most nodes, and the most arcs, of a network for which a start is looked for.
const MOST: u32 = 268_435_456;

/// A length for each arc, and a price for each node.
#[derive(Debug, Drop)]
pub struct Start {
    pub lengths: Vec<u64>,
    pub prices: Vec<i64>,
}

/// Lengths near what is wanted, mostly admissible and nearly least, with the prices of the nodes in the relaxation; or
/// nothing, where there are no arcs or they can't be balanced with the fuel that there is. Where it ends in the
/// relaxation, what there is then is rounded. Who starts from the list has to test it.
pub fn near_start(alloc: Global, net: &BoundedNet) -> Result<Option<Start>, Memory>
    ensures lengths { IfOk result (λ found. IfSome found
        (λ start. length start.lengths.items ≡ length net.now.whole.now.arcs.items)) }
    ensures prices { IfOk result (λ found. IfSome found
        (λ start. length start.prices.items ≡ net.now.whole.now.nodes)) }
{
    let net = net.whole;
    if net.arcs.is_empty() || net.nodes > MOST || net.arcs.len() > MOST as usize {
        return Ok(None);
    }
    let chains = chains_of(alloc, SmallNet { whole: net })?;
    let cover = cover_of(alloc, &chains)?;
    let flow = first_flow(alloc, &cover)?;
    let looks = LOOKS.saturating_mul(net.arcs.len() as u32).min(MOST_LOOKS);
    let mut fuel = looks;
    let mut search = relax(alloc, no_search(alloc, flow)?, &mut fuel)?;
    let prices = prices_of(alloc, &chains, &search.flow)?;
    let rounded = round(alloc, &search.flow)?;
    fuel = looks;
    if search.repair(&rounded, &mut fuel)?.is_none() {
        return Ok(None);
    }
    let lengths = lengths_of(alloc, &chains, &search.flow)?;
    Ok(Some(Start { lengths, prices }))
}

/// The length of each arc: that of the first way of its chain.
fn lengths_of(alloc: Global, chains: &Chains<'_>, flow: &Flow<'_>) -> Result<Vec<u64>, Memory>
    requires { length flow.now.cover.now.slopes.items ≡ length chains.now.all.items }
    ensures { IfOk result (λ lengths. length lengths.items ≡ length chains.now.net.whole.now.arcs.items) }
{
    let mut lengths = vec![in alloc; 0u64; chains.net.whole.arcs.len()]?;
    for (k, chain) in chains.all.iter().enumerate() {
        give(&mut lengths, chain.as_slice(), flow.lengths[2 * k]);
    }
    Ok(lengths)
}

/// Gives each arc of a chain its length.
fn give(lengths: &mut [u64], chain: &[u32], long: u64)
    requires { AreBelow (2 * length lengths.old) chain.now }
    ensures { length lengths.new ≡ length lengths.old }
{
    for end in chain {
        lengths[*end as usize / 2] = long;
    }
}
