//! Prices of the nodes: half of what their copies differ in, since costs were doubled, and between the arcs of a chain
//! what these leave.

ghost use Rattle.std.specs.Prelude.{◌≡◌, ◌+◌, ◌*◌, ◌<◌, length, IfOk};
ghost use Rattle.qm_warmstart.specs.Tables.{AreBelow};

use crate::Memory;
use crate::chains::{Chains, across};
use crate::flow::Flow;
use crate::small_net::SmallNet;
use std::alloc::Global;

/// Prices of the nodes of a network.
#[derive(Drop)]
struct Prices<'a> {
    net: SmallNet<'a>,
    at: Vec<i64>,
    ghost each: { length at.items ≡ net.whole.now.nodes },
}

/// The prices of all nodes. Linear.
pub(crate) fn prices_of(
    alloc: Global,
    chains: &Chains<'_>,
    flow: &Flow<'_>,
) -> Result<Vec<i64>, Memory>
    requires prices { flow.now.cover.now.nodes ≡ 2 * chains.now.net.whole.now.nodes + 1 }
    requires lengths { length flow.now.cover.now.slopes.items ≡ length chains.now.all.items }
    ensures { IfOk result (λ prices. length prices.items ≡ chains.now.net.whole.now.nodes) }
{
    let net = chains.net;
    let mut at = Vec::with_capacity(alloc, net.whole.nodes as usize)?;
    for node in 0..net.whole.nodes as usize {
        let second = flow.prices[2 * node + 1];
        at.push(flow.prices[2 * node].saturating_sub(second).div_euclid(2))?;
    }
    let mut prices = Prices { net, at };
    for (k, chain) in chains.all.iter().enumerate() {
        let twice = flow.lengths[2 * k].saturating_add(flow.lengths[2 * k + 1]);
        prices.put_between(chain.as_slice(), twice);
    }
    Ok(prices.at)
}

impl Prices<'_> {
    /// Prices the nodes between the arcs of a chain, whose mean length is half of what is given.
    ///
    /// The two ends of an arc, each counted by its sign, may have anything within the margin of the arc. Between two
    /// arcs the counts cancel, so all arcs have together what the chain's ends have. Each begins with the least, and
    /// the first ones get what is left.
    fn put_between(&mut self, chain: &[u32], twice: u64)
        requires { AreBelow (2 * length self.old.net.whole.now.arcs.items) chain.now }
        ensures { self.new.net ≡ self.old.net }
    {
        let [first, .., last] = chain else {
            return;
        };
        let net = self.net;
        let mut before = self.signed(*first);
        let mut left = before.saturating_add(self.signed(across(*last)));
        for end in chain {
            left = left.saturating_sub(margin(net, *end, twice).0);
        }
        for end in chain {
            let (least, most) = margin(net, *end, twice);
            let part = left.min(most.saturating_sub(least));
            left = left.saturating_sub(part);
            let after = least.saturating_add(part).saturating_sub(before);
            if end != last {
                self.put_signed(across(*end), after);
            }
            before = after.saturating_neg();
        }
    }

    /// The price of the node of an end, negative at a minus; nothing where there is no node.
    fn signed(&self, end: u32) -> i64
        requires { end < 2 * length self.now.net.whole.now.arcs.items }
    {
        match self.net.end(end) {
            None => 0,
            Some(end) if end.plus => self.at[end.node as usize],
            Some(end) => self.at[end.node as usize].saturating_neg(),
        }
    }

    /// Puts the price of the node of an end, told as the end counts it.
    fn put_signed(&mut self, end: u32, price: i64)
        requires { end < 2 * length self.old.net.whole.now.arcs.items }
        ensures { self.new.net ≡ self.old.net }
    {
        if let Some(end) = self.net.end(end) {
            self.at[end.node as usize] = if end.plus {
                price
            } else {
                price.saturating_neg()
            };
        }
    }
}

/// The margin of an arc: twice what one less of it saves, and twice what one more costs. Both are the same at a half.
fn margin(net: SmallNet<'_>, end: u32, twice: u64) -> (i64, i64)
    requires { end < 2 * length net.whole.now.arcs.items }
{
    let cost = net.cost(end);
    let least = cost.rise((twice / 2 + twice % 2).saturating_sub(1));
    let most = cost.rise(twice / 2);
    (least.saturating_mul(2), most.saturating_mul(2))
}
