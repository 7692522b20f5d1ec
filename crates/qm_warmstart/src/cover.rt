//! The double cover of a network.

ghost use Rattle.std.specs.Prelude.{◌≡◌, ◌+◌, ◌*◌, ◌/◌, ◌^◌, ◌<◌, ◌≤◌, length, IfOk, IfSome};
ghost use Rattle.std.specs.List.{All};
ghost use Rattle.qm_warmstart.specs.Tables.{AreBelow, LeadsWithin, IsExitWithin, IsPlaced};

use crate::Memory;
use crate::chains::{Chains, across};
use crate::costs::{Slope, slope_of};
use crate::small_net::SmallNet;
use def_flow::End;
use std::alloc::Global;

/// An arc of the cover: one more of its length adds one at the node `plus` and takes one away at the node `minus`.
#[derive(Clone, Copy, Debug, PartialEq, Eq)]
pub(crate) struct Way {
    pub(crate) plus: u32,
    pub(crate) minus: u32,
}

/// A step along a way: one more of it leads from its minus end to its plus end, one less the other way round.
#[derive(Clone, Copy, Debug, PartialEq, Eq)]
pub(crate) struct Step {
    pub(crate) way: u32,
    pub(crate) more: bool,
}

/// A step from a node, and where it leads.
#[derive(Clone, Copy, Debug, PartialEq, Eq)]
pub(crate) struct Exit {
    pub(crate) to: u32,
    pub(crate) step: Step,
}

/// Where the two steps along a way stand among all exits.
#[derive(Clone, Copy, Debug, PartialEq, Eq)]
pub(crate) struct Place {
    pub(crate) more: u32,
    pub(crate) less: u32,
}

/// The double cover: node `v` is there as `2 * v` and, with all signs turned, as `2 * v + 1`; chain `c` as the ways
/// `2 * c` and `2 * c + 1`. Behind all other nodes is the ground, where the ends lie that are at no node. The cover is
/// its own mirror image: the other copy of each node, the other way of each chain, and the ground itself.
#[derive(Debug, Drop)]
pub(crate) struct Cover {
    pub(crate) nodes: u32,
    pub(crate) ways: Vec<Way>,
    /// The exits of all nodes, in order; for each node the first of its own, and at the end how many there are.
    pub(crate) exits: Vec<Exit>,
    pub(crate) firsts: Vec<u32>,
    /// For each way its place among the exits.
    pub(crate) places: Vec<Place>,
    /// What the chains cost, and their least lengths.
    pub(crate) slopes: Vec<Slope>,
    ghost chains: { length ways.items ≡ 2 * length slopes.items },
    ghost some: { 1 ≤ length ways.items },
    ghost few: { length ways.items ≤ 2 ^ 30 },
    ghost grounded: { 1 ≤ nodes },
    ghost small: { nodes ≤ 2 ^ 30 },
    ghost lead: { All (LeadsWithin nodes) ways.items },
    ghost all: { length exits.items ≤ 2 ^ 31 },
    ghost leave: { All (IsExitWithin nodes (length ways.items)) exits.items },
    ghost counted: { length firsts.items ≡ nodes + 1 },
    ghost begin: { All (λ first. first ≤ length exits.items) firsts.items },
    ghost placed: { length places.items ≡ length ways.items },
    ghost stand: { All (IsPlaced (length exits.items)) places.items },
}

impl Cover {
    /// The ground.
    pub(crate) fn ground(&self) -> u32
        ensures { result + 1 ≡ self.now.nodes }
    {
        self.nodes - 1
    }

    /// The mirror image of a node.
    pub(crate) fn mirror(&self, node: u32) -> u32
        requires { node < self.now.nodes }
        ensures { result < self.now.nodes }
    {
        if node % 2 == 1 {
            node - 1
        } else {
            (node + 1).min(self.ground())
        }
    }

    /// Where a way leads.
    pub(crate) fn way(&self, way: u32) -> Way
        requires { way < length self.now.ways.items }
        ensures { LeadsWithin self.now.nodes result }
    {
        self.ways[way as usize]
    }

    /// The first exit of a node, and the first behind them.
    pub(crate) fn exits_of(&self, node: u32) -> (u32, u32)
        requires { node < self.now.nodes }
        ensures { result.1 ≤ length self.now.exits.items }
    {
        (self.firsts[node as usize], self.firsts[node as usize + 1])
    }

    /// An exit by its place.
    pub(crate) fn exit(&self, place: u32) -> Exit
        requires { place < length self.now.exits.items }
        ensures { IsExitWithin self.now.nodes (length self.now.ways.items) result }
    {
        self.exits[place as usize]
    }

    /// The place of a step.
    pub(crate) fn place(&self, step: Step) -> u32
        requires { step.way < length self.now.ways.items }
        ensures { result < length self.now.exits.items }
    {
        let Place { more, less } = self.places[step.way as usize];
        if step.more { more } else { less }
    }

    /// What the chain of a way costs.
    pub(crate) fn slope(&self, way: u32) -> &Slope
        requires { way < length self.now.ways.items }
    {
        &self.slopes[way as usize / 2]
    }

    /// The other way of a chain.
    pub(crate) fn other(&self, way: u32) -> u32
        requires { way < length self.now.ways.items }
        ensures { result < length self.now.ways.items }
    {
        if way % 2 == 0 { way + 1 } else { way - 1 }
    }

    /// Where a step begins.
    pub(crate) fn origin(&self, step: Step) -> u32
        requires { step.way < length self.now.ways.items }
        ensures { result < self.now.nodes }
    {
        let Way { plus, minus } = self.way(step.way);
        if step.more { minus } else { plus }
    }
}

/// The ways of a cover in the making, and how many nodes they lead between.
#[derive(Drop)]
struct Ways {
    nodes: u32,
    all: Vec<Way>,
    ghost some: { 1 ≤ length all.items },
    ghost few: { length all.items ≤ 2 ^ 30 },
    ghost grounded: { 1 ≤ nodes },
    ghost small: { nodes ≤ 2 ^ 30 },
    ghost lead: { All (LeadsWithin nodes) all.items },
}

/// The exits of a cover in the making.
#[derive(Drop)]
struct Exits {
    ways: Ways,
    all: Vec<Exit>,
    /// For each node the first place of its exits, and the first that is still free.
    firsts: Vec<u32>,
    free: Vec<u32>,
    ghost two: { length all.items ≡ 2 * length ways.all.items },
    ghost counted: { length firsts.items ≡ ways.nodes + 1 },
    ghost begin: { All (λ first. first ≤ 2 * length ways.all.items) firsts.items },
    ghost each: { length free.items ≡ ways.nodes },
    ghost leave: { All (IsExitWithin ways.nodes (length ways.all.items)) all.items },
}

/// The double cover of a network in chains. Linear.
pub(crate) fn cover_of(alloc: Global, chains: &Chains<'_>) -> Result<Cover, Memory>
    ensures chains { IfOk result (λ cover. length cover.slopes.items ≡ length chains.now.all.items) }
    ensures nodes { IfOk result (λ cover. cover.nodes ≡ 2 * chains.now.net.whole.now.nodes + 1) }
{
    let mut filled = no_exits(alloc, ways_of(alloc, chains)?)?;
    let places = places_of(alloc, &mut filled)?;
    let slopes = slopes_of(alloc, chains)?;
    let Exits {
        ways,
        all: exits,
        firsts,
        ..
    } = filled;
    let Ways { nodes, all: ways } = ways;
    Ok(Cover {
        nodes,
        ways,
        exits,
        firsts,
        places,
        slopes,
    })
}

/// What the chains cost.
fn slopes_of(alloc: Global, chains: &Chains<'_>) -> Result<Vec<Slope>, Memory>
    ensures { IfOk result (λ slopes. length slopes.items ≡ length chains.now.all.items) }
{
    let net = chains.net;
    let mut slopes = Vec::with_capacity(alloc, chains.all.len())?;
    for chain in &chains.all {
        slopes.push(slope_of(alloc, net, chain.as_slice())?)?;
    }
    Ok(slopes)
}

/// Two ways for each chain, between its first end and its last.
fn ways_of(alloc: Global, chains: &Chains<'_>) -> Result<Ways, Memory>
    ensures count { IfOk result (λ ways. length ways.all.items ≡ 2 * length chains.now.all.items) }
    ensures nodes { IfOk result (λ ways. ways.nodes ≡ 2 * chains.now.net.whole.now.nodes + 1) }
{
    let net = chains.net;
    let mut all = Vec::with_capacity(alloc, chains.all.len().saturating_mul(2))?;
    for chain in &chains.all {
        let (first, last) = ends_of(net, chain.as_slice());
        all.push(Way {
            plus: copy_of(net, first, true),
            minus: copy_of(net, last, false),
        })?;
        all.push(Way {
            plus: copy_of(net, last, true),
            minus: copy_of(net, first, false),
        })?;
    }
    let nodes = 2 * net.whole.nodes + 1;
    Ok(Ways { nodes, all })
}

/// The two ends of a chain, where they lie at a node.
fn ends_of(net: SmallNet<'_>, chain: &[u32]) -> (Option<End>, Option<End>)
    requires { AreBelow (2 * length net.whole.now.arcs.items) chain.now }
    ensures first { IfSome result.0 (λ end. end.node < net.entry.whole.now.nodes) }
    ensures last { IfSome result.1 (λ end. end.node < net.entry.whole.now.nodes) }
{
    match (chain.first(), chain.last()) {
        (Some(first), Some(last)) => (net.end(*first), net.end(across(*last))),
        _ => (None, None),
    }
}

/// The copy of its node in which an end has this sign, or the ground.
fn copy_of(net: SmallNet<'_>, end: Option<End>, plus: bool) -> u32
    requires { IfSome end (λ end. end.node < net.whole.now.nodes) }
    ensures { result < 2 * net.entry.whole.now.nodes + 1 }
{
    match end {
        None => 2 * net.whole.nodes,
        Some(end) => 2 * end.node + u32::from(end.plus != plus),
    }
}

/// For each node how many exits there are at those before it, and at the end how many there are in all.
fn firsts_of(alloc: Global, ways: &Ways) -> Result<Vec<u32>, Memory>
    ensures count { IfOk result (λ firsts. length firsts.items ≡ ways.now.nodes + 1) }
    ensures within { IfOk result (λ firsts. All (λ first. first ≤ 2 * length ways.now.all.items) firsts.items) }
{
    let mut counts = vec![in alloc; 0u32; ways.nodes as usize]?;
    for way in &ways.all {
        counts[way.plus as usize] = counts[way.plus as usize].saturating_add(1);
        counts[way.minus as usize] = counts[way.minus as usize].saturating_add(1);
    }
    let all = 2 * ways.all.len() as u32;
    let mut firsts = Vec::with_capacity(alloc, ways.nodes as usize + 1)?;
    firsts.push(0)?;
    let mut before = 0u32;
    for count in &counts {
        before = before.saturating_add(*count).min(all);
        firsts.push(before)?;
    }
    Ok(firsts)
}

/// Room for two exits of each way.
fn no_exits(alloc: Global, ways: Ways) -> Result<Exits, Memory>
    ensures { IfOk result (λ exits. exits.ways ≡ ways) }
{
    let none = Exit {
        to: 0,
        step: Step {
            way: 0,
            more: false,
        },
    };
    let all = vec![in alloc; none; 2 * ways.all.len()]?;
    let firsts = firsts_of(alloc, &ways)?;
    let free = Vec::from_slice(alloc, &firsts[..ways.nodes as usize])?;
    Ok(Exits {
        ways,
        all,
        firsts,
        free,
    })
}

/// Puts the steps of all ways among the exits, and tells their places.
fn places_of(alloc: Global, exits: &mut Exits) -> Result<Vec<Place>, Memory>
    ensures ways { exits.new.ways ≡ exits.old.ways }
    ensures count { IfOk result (λ places. length places.items ≡ length exits.old.ways.all.items) }
    ensures within { IfOk result
        (λ places. All (IsPlaced (2 * length exits.old.ways.all.items)) places.items) }
{
    let count = exits.ways.all.len();
    let mut places = Vec::with_capacity(alloc, count)?;
    for way in 0..count as u32 {
        let more = exits.put(Step { way, more: true });
        let less = exits.put(Step { way, more: false });
        places.push(Place { more, less })?;
    }
    Ok(places)
}

impl Exits {
    /// Puts a step at the first free place of the node where it begins, and tells the place.
    fn put(&mut self, step: Step) -> u32
        requires { step.way < length self.old.ways.all.items }
        ensures ways { self.new.ways ≡ self.old.ways }
        ensures place { result < 2 * length self.old.ways.all.items }
    {
        let Way { plus, minus } = self.ways.all[step.way as usize];
        let (node, to) = if step.more {
            (minus, plus)
        } else {
            (plus, minus)
        };
        let place = self.free[node as usize];
        if place as usize >= self.all.len() {
            return 0;
        }
        self.free[node as usize] = place + 1;
        self.all[place as usize] = Exit { to, step };
        place
    }
}
