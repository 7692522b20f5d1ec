//! Chains: arcs that go on one from the other, and so have one length in each admissible list.

ghost use Rattle.std.specs.Prelude.{◌≡◌, ◌≢◌, ◌*◌, ◌/◌, ◌^◌, ◌<◌, ◌≤◌, length, IfOk};
ghost use Rattle.std.specs.List.{All};
ghost use Rattle.qm_warmstart.specs.Tables.{AreBelow, AreChains};

use crate::Memory;
use crate::small_net::SmallNet;
use smallvec::SmallVec;
use std::alloc::Global;

/// The arcs of a chain in turn, each told by the end at which it is entered.
pub(crate) type Chain = SmallVec<u32, 4>;

/// The arcs of a network, in chains.
#[derive(Drop)]
pub(crate) struct Chains<'a> {
    pub(crate) net: SmallNet<'a>,
    pub(crate) all: Vec<Chain>,
    ghost some: { 1 ≤ length all.items },
    ghost few: { length all.items ≤ 2 ^ 28 },
    ghost ends: { AreChains (length net.whole.now.arcs.items) all.items },
}

/// For each end, the end of another arc that it is joined to, or the end itself.
#[derive(Drop)]
struct Joined<'a> {
    net: SmallNet<'a>,
    at: Vec<u32>,
    ghost long: { length at.items ≡ 2 * length net.whole.now.arcs.items },
    ghost ends: { AreBelow (2 * length net.whole.now.arcs.items) at.items },
}

/// The other end of the same arc.
pub(crate) fn across(end: u32) -> u32
    requires { end < 2 ^ 30 }
    ensures same { result / 2 ≡ end / 2 }
    ensures other { result ≢ end }
{
    if end % 2 == 0 { end + 1 } else { end - 1 }
}

/// All arcs of a network, in chains. Linear.
pub(crate) fn chains_of<'a>(alloc: Global, net: SmallNet<'a>) -> Result<Chains<'a>, Memory>
    ensures { IfOk result (λ chains. chains.net.whole.now ≡ net.entry.whole.now) }
{
    let joined = joined_ends(alloc, net)?;
    let mut taken = vec![in alloc; false; net.whole.arcs.len()]?;
    let mut all = Vec::new(alloc);
    for arc in 0..net.whole.arcs.len() {
        if !taken[arc] {
            let first = joined.first_of(2 * arc as u32);
            all.push(joined.chain_from(alloc, &mut taken, first)?)?;
        }
    }
    Ok(Chains { net, all })
}

/// How many ends lie at a node, and the last two of them.
#[derive(Clone, Copy, Debug, PartialEq, Eq)]
struct Site {
    many: u32,
    one: u32,
    two: u32,
}

/// Joined are the two ends at a node that has no more, where one has a plus and the other a minus.
fn joined_ends<'a>(alloc: Global, net: SmallNet<'a>) -> Result<Joined<'a>, Memory>
    ensures { IfOk result (λ joined. joined.net.whole.now ≡ net.entry.whole.now) }
{
    let mut at = Vec::with_capacity(alloc, net.ends() as usize)?;
    for end in 0..net.ends() {
        at.push(end)?;
    }
    for site in &sites_of(alloc, net)? {
        let Site { many, one, two } = *site;
        if many == 2 && is_one_length(net, *site) {
            at[one as usize] = two;
            at[two as usize] = one;
        }
    }
    Ok(Joined { net, at })
}

/// The ends at each node.
fn sites_of(alloc: Global, net: SmallNet<'_>) -> Result<Vec<Site>, Memory>
    ensures { let ends = 2 * length net.entry.whole.now.arcs.items in
        IfOk result (λ sites. All (λ site. (site.one < ends) × (site.two < ends)) sites.items) }
{
    let none = Site {
        many: 0,
        one: 0,
        two: 0,
    };
    let mut sites = vec![in alloc; none; net.whole.nodes as usize]?;
    for end in 0..net.ends() {
        if let Some(place) = net.end(end) {
            let site = sites[place.node as usize];
            sites[place.node as usize] = Site {
                many: site.many.saturating_add(1),
                one: site.two,
                two: end,
            };
        }
    }
    Ok(sites)
}

/// Whether the two ends at a node, where no other lies, belong to two arcs, which then have the same length.
fn is_one_length(net: SmallNet<'_>, site: Site) -> bool
    requires { let ends = 2 * length net.whole.now.arcs.items in (site.one < ends) × (site.two < ends) }
{
    match (net.end(site.one), net.end(site.two)) {
        (Some(here), Some(there)) => site.one / 2 != site.two / 2 && here.plus != there.plus,
        _ => false,
    }
}

impl Joined<'_> {
    /// The first end of the chain of an end, back from there; in a ring, the end itself.
    fn first_of(&self, end: u32) -> u32
        requires { end < length self.now.at.items }
        ensures { result < length self.now.at.items }
    {
        let mut first = end;
        for _ in 0..self.at.len() {
            let before = self.at[first as usize];
            if before == first {
                return first;
            }
            first = across(before);
            if first == end {
                return first;
            }
        }
        first
    }

    /// The chain from an end on, whose arcs are marked as taken.
    fn chain_from(&self, alloc: Global, taken: &mut [bool], first: u32) -> Result<Chain, Memory>
        requires taken { length taken.old ≡ length self.now.net.whole.now.arcs.items }
        requires first { first < length self.now.at.items }
        ensures long { length taken.new ≡ length taken.old }
        ensures ends { IfOk result (λ chain. AreBelow (2 * length taken.old) chain.items) }
    {
        let mut chain = Chain::new(alloc);
        let mut here = first;
        for _ in 0..taken.len() {
            chain.push(here)?;
            taken[here as usize / 2] = true;
            let last = across(here);
            let next = self.at[last as usize];
            if next == last || taken[next as usize / 2] {
                break;
            }
            here = next;
        }
        Ok(chain)
    }
}
