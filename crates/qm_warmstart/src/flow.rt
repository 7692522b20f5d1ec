//! Lengths over the double cover, what is too much at each node, prices, and what each step costs.

ghost use Rattle.std.specs.Prelude.{◌≡◌, ◌*◌, ◌<◌, ◌≤◌, length, IfOk};

use crate::Memory;
use crate::costs::Slope;
use crate::cover::{Cover, Step, Way};
use crate::scaling::first_scale;
use def_flow::MAX_LENGTH;
use std::alloc::Global;

/// What a step costs that a length does not allow.
pub(crate) const BARRED: i64 = i64::MAX;

/// What the ground takes: all that is brought there.
const ALL: i64 = i64::MIN / 2;

/// Lengths over a cover: one for each way, what they add up to at each node, a price for each node, and what each exit
/// costs.
///
/// All costs are doubled, so that mirrored prices are whole numbers.
#[derive(Debug, Drop)]
pub(crate) struct Flow<'a> {
    pub(crate) cover: &'a Cover,
    /// Whether the flow is its own mirror image. Then both ways of a chain have one length, which is kept doubled at
    /// the first of them, and a step along one goes half of it on both; what is too much is counted in halves, and the
    /// ground takes all.
    pub(crate) mirrored: bool,
    /// How many bits of the costs are left out.
    pub(crate) scale: u32,
    pub(crate) lengths: Vec<u64>,
    pub(crate) excess: Vec<i64>,
    pub(crate) prices: Vec<i64>,
    pub(crate) costs: Vec<i64>,
    ghost measured: { length lengths.items ≡ length cover.now.ways.items },
    ghost added: { length excess.items ≡ cover.now.nodes },
    ghost priced: { length prices.items ≡ cover.now.nodes },
    ghost costed: { length costs.items ≡ length cover.now.exits.items },
}

/// The mirrored flow of the lengths of least cost, which they are at each scale. Linear.
pub(crate) fn first_flow<'a>(alloc: Global, cover: &'a Cover) -> Result<Flow<'a>, Memory>
    ensures { IfOk result (λ flow. flow.cover.now ≡ cover.now) }
{
    let mut lengths = vec![in alloc; 0u64; cover.ways.len()]?;
    for (chain, slope) in cover.slopes.iter().enumerate() {
        lengths[2 * chain] = slope.least().min(MAX_LENGTH).saturating_mul(2);
    }
    let mut flow = Flow {
        cover,
        mirrored: true,
        scale: first_scale(cover),
        lengths,
        excess: vec![in alloc; 0i64; cover.nodes as usize]?,
        prices: vec![in alloc; 0i64; cover.nodes as usize]?,
        costs: vec![in alloc; 0i64; cover.exits.len()]?,
    };
    flow.weigh();
    Ok(flow)
}

impl Flow<'_> {
    /// Gives each way of a mirrored flow a length of its own: half of what was kept at both, with one more for the
    /// second where that is odd. Linear.
    pub(crate) fn unfold(&mut self)
        ensures { self.new.cover.now ≡ self.old.cover.now }
    {
        for chain in 0..self.cover.slopes.len() {
            let twice = self.lengths[2 * chain];
            self.lengths[2 * chain] = twice / 2;
            self.lengths[2 * chain + 1] = twice - twice / 2;
        }
        self.mirrored = false;
        self.weigh();
    }

    /// Gives both ways of each chain one whole length, and the ground all that is brought there. Linear.
    pub(crate) fn share(&mut self, lengths: &[u64])
        requires { length self.old.cover.now.slopes.items ≡ length lengths.now }
        ensures { self.new.cover.now ≡ self.old.cover.now }
    {
        for (chain, length) in lengths.iter().enumerate() {
            self.lengths[2 * chain] = *length;
            self.lengths[2 * chain + 1] = *length;
        }
        self.mirrored = false;
        self.weigh();
        self.excess[self.cover.ground() as usize] = ALL;
    }

    /// Adds up at each node what its ways bring, and finds what each step costs.
    pub(crate) fn weigh(&mut self)
        ensures { self.new.cover.now ≡ self.old.cover.now }
    {
        empty(&mut self.excess);
        for way in 0..self.cover.ways.len() as u32 {
            let Way { plus, minus } = self.cover.way(way);
            let length = self.length(way).min(4 * MAX_LENGTH) as i64;
            self.bring(minus, plus, length);
            self.charge(way);
        }
        if self.mirrored {
            self.excess[self.cover.ground() as usize] = ALL;
        }
    }

    /// Where the length of a way is kept.
    fn place(&self, way: u32) -> usize
        ensures { result ≤ way }
    {
        if self.mirrored {
            way as usize - way as usize % 2
        } else {
            way as usize
        }
    }

    /// The length of a way; in a mirrored flow, twice as much.
    fn length(&self, way: u32) -> u64
        requires { way < length self.now.cover.now.ways.items }
    {
        self.lengths[self.place(way)]
    }

    /// How many steps one more of a length takes.
    fn fold(&self) -> u64
        ensures { (1 ≤ result) × (result ≤ 2) }
    {
        if self.mirrored { 2 } else { 1 }
    }

    /// What a step beyond a length costs, with the bits that the scale leaves.
    fn rise(&self, slope: &Slope, length: u64) -> i64 {
        slope.rise(length / self.fold()) >> self.scale.min(63)
    }

    /// What an exit costs by prices, at which no step of a least flow costs less than nothing.
    #[inline(always)]
    pub(crate) fn reduced(&self, price: i64, place: u32, to: u32) -> i64
        requires place { place < length self.now.cover.now.exits.items }
        requires to { to < self.now.cover.now.nodes }
    {
        let cost = self.costs[place as usize];
        if cost == BARRED {
            BARRED
        } else {
            cost.saturating_add(price)
                .saturating_sub(self.prices[to as usize])
        }
    }

    /// Takes so much away at one node and adds it at another.
    pub(crate) fn bring(&mut self, from: u32, to: u32, much: i64)
        requires { (from < self.old.cover.now.nodes) × (to < self.old.cover.now.nodes) }
        ensures { self.new.cover.now ≡ self.old.cover.now }
    {
        self.excess[from as usize] = self.excess[from as usize].saturating_sub(much);
        self.excess[to as usize] = self.excess[to as usize].saturating_add(much);
    }

    /// Finds what the steps along a way cost.
    fn charge(&mut self, way: u32)
        requires { way < length self.old.cover.now.ways.items }
        ensures { self.new.cover.now ≡ self.old.cover.now }
    {
        let cover = self.cover;
        let (slope, length, fold) = (cover.slope(way), self.length(way), self.fold());
        let more = cover.place(Step { way, more: true });
        let less = cover.place(Step { way, more: false });
        self.costs[more as usize] = if length < fold * MAX_LENGTH {
            self.rise(slope, length).saturating_mul(2)
        } else {
            BARRED
        };
        self.costs[less as usize] = if length > slope.floor.saturating_mul(fold) {
            self.rise(slope, length - 1).saturating_mul(-2)
        } else {
            BARRED
        };
    }

    /// Whether a step may be gone so many times, each time for what the first costs.
    pub(crate) fn is_even(&self, step: Step, times: u64) -> bool
        requires way { step.way < length self.now.cover.now.ways.items }
        requires times { 1 ≤ times }
    {
        let slope = self.cover.slope(step.way);
        let (length, fold) = (self.length(step.way), self.fold());
        if step.more {
            length <= fold * MAX_LENGTH
                && times <= fold * MAX_LENGTH - length
                && self.rise(slope, length) == self.rise(slope, length + times - 1)
        } else {
            let least = slope.floor.saturating_mul(fold);
            length > least
                && times <= length - least
                && self.rise(slope, length - 1) == self.rise(slope, length - times)
        }
    }

    /// Whether a step takes the last that a chain can give, where each way has a length of its own.
    pub(crate) fn is_last(&self, step: Step) -> bool
        requires { step.way < length self.now.cover.now.ways.items }
    {
        !step.more
            && self.lengths[step.way as usize] <= self.cover.slope(step.way).floor.saturating_add(1)
    }

    /// Goes so many times along a step.
    pub(crate) fn go(&mut self, step: Step, times: u64)
        requires { step.way < length self.old.cover.now.ways.items }
        ensures { self.new.cover.now ≡ self.old.cover.now }
    {
        let place = self.place(step.way);
        self.lengths[place] = if step.more {
            self.lengths[place].saturating_add(times)
        } else {
            self.lengths[place].saturating_sub(times)
        };
        self.charge(step.way);
        if self.mirrored {
            self.charge(self.cover.other(step.way));
        }
    }
}

/// Nothing is too much anywhere.
fn empty(excess: &mut [i64])
    ensures { length excess.new ≡ length excess.old }
{
    for excess in excess {
        *excess = 0;
    }
}
