//! Halves are rounded along trails, so that what one chain of a node gains its next one loses.

ghost use Rattle.std.specs.Prelude.{◌≡◌, ◌+◌, ◌<◌, ◌≤◌, length, IfOk, IfSome};

use crate::Memory;
use crate::cover::Way;
use crate::flow::Flow;
use std::alloc::Global;

/// Which chains of a flow still miss a half, and which have been rounded up.
#[derive(Debug, Drop)]
struct Halves<'f, 'a> {
    flow: &'f Flow<'a>,
    missing: Vec<bool>,
    ups: Vec<bool>,
    /// The first exit of each node that was not looked at.
    next: Vec<u32>,
    ghost miss: { length missing.items ≡ length flow.now.cover.now.slopes.items },
    ghost rise: { length ups.items ≡ length flow.now.cover.now.slopes.items },
    ghost begin: { length next.items ≡ flow.now.cover.now.nodes + 1 },
}

/// A whole length for each chain, next to the mean of its two. Linear.
pub(crate) fn round(alloc: Global, flow: &Flow<'_>) -> Result<Vec<u64>, Memory>
    ensures { IfOk result (λ lengths. length flow.now.cover.now.slopes.items ≡ length lengths.items) }
{
    let cover = flow.cover;
    let mut halves = halves_of(alloc, flow)?;
    for chain in 0..cover.slopes.len() as u32 {
        let Way { plus, minus } = cover.way(2 * chain);
        let ground = cover.ground();
        if halves.missing[chain as usize] && (plus == ground || minus == ground) {
            halves.begin(chain, plus.min(minus));
        }
    }
    for chain in 0..cover.slopes.len() as u32 {
        let Way { plus, minus } = cover.way(2 * chain);
        if halves.missing[chain as usize] {
            halves.begin(chain, plus.max(minus));
        }
    }
    let mut lengths = Vec::with_capacity(alloc, cover.slopes.len())?;
    for chain in 0..cover.slopes.len() {
        let up = u128::from(halves.ups[chain]);
        lengths.push(((sum_of(flow, chain) + up) / 2) as u64)?;
    }
    Ok(lengths)
}

/// The two lengths of a chain together.
fn sum_of(flow: &Flow<'_>, chain: usize) -> u128
    requires { chain < length flow.now.cover.now.slopes.items }
    ensures { result ≤ 36893488147419103230 }
{
    u128::from(flow.lengths[2 * chain]) + u128::from(flow.lengths[2 * chain + 1])
}

/// The chains that miss a half.
fn halves_of<'f, 'a>(alloc: Global, flow: &'f Flow<'a>) -> Result<Halves<'f, 'a>, Memory>
    ensures { IfOk result (λ halves. halves.flow.now ≡ flow.now) }
{
    let chains = flow.cover.slopes.len();
    let mut missing = Vec::with_capacity(alloc, chains)?;
    for chain in 0..chains {
        missing.push(sum_of(flow, chain) % 2 == 1)?;
    }
    let ups = vec![in alloc; false; chains]?;
    let next = Vec::from_slice(alloc, &flow.cover.firsts)?;
    Ok(Halves {
        flow,
        missing,
        ups,
        next,
    })
}

impl Halves<'_, '_> {
    /// Rounds a chain to its cheaper side, up where both cost the same, and follows the trail that leaves it at a node
    /// of the cover.
    fn begin(&mut self, chain: u32, node: u32)
        requires chain { chain < length self.old.flow.now.cover.now.slopes.items }
        requires node { node < self.old.flow.now.cover.now.nodes }
        ensures { self.new.flow.now ≡ self.old.flow.now }
    {
        let cover = self.flow.cover;
        let mean = (sum_of(self.flow, chain as usize) / 2) as u64;
        let up = cover.slope(2 * chain).rise(mean) <= 0;
        self.missing[chain as usize] = false;
        self.ups[chain as usize] = up;
        let Way { plus, minus } = cover.way(2 * chain);
        if plus != minus {
            self.follow(node, (plus == node) == up);
        }
    }

    /// Follows a trail from a node of the cover that has got a half more, or less.
    fn follow(&mut self, first: u32, gained: bool)
        requires { first < self.old.flow.now.cover.now.nodes }
        ensures { self.new.flow.now ≡ self.old.flow.now }
    {
        let cover = self.flow.cover;
        let (mut node, mut more) = (first, gained);
        for _ in 0..cover.slopes.len() {
            if node == cover.ground() {
                return;
            }
            // The first copy of the node has its own signs.
            if node % 2 == 1 {
                node -= 1;
                more = !more;
            }
            let Some(way) = self.next_at(node) else {
                return;
            };
            let Way { plus, minus } = cover.way(way);
            let up = (plus == node) != more;
            self.missing[way as usize / 2] = false;
            self.ups[way as usize / 2] = up;
            if plus != minus {
                node = if plus == node { minus } else { plus };
                more = (plus == node) == up;
            }
        }
    }

    /// The next way at a node whose chain misses a half.
    fn next_at(&mut self, node: u32) -> Option<u32>
        requires { node < self.old.flow.now.cover.now.nodes }
        ensures flow { self.new.flow.now ≡ self.old.flow.now }
        ensures way { IfSome result (λ way. way < length self.old.flow.now.cover.now.ways.items) }
    {
        let cover = self.flow.cover;
        let end = cover.exits_of(node).1;
        for place in self.next[node as usize]..end {
            self.next[node as usize] = place;
            let way = cover.exit(place).step.way;
            if self.missing[way as usize / 2] {
                return Some(way);
            }
        }
        None
    }
}
