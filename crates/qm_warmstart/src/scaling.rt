//! Scales: where costs are great, a flow is first found for their upper bits, and its prices are near those for more.

ghost use Rattle.std.specs.Prelude.{◌≡◌, ◌<◌, ◌≤◌, length};

use crate::costs::Slope;
use crate::cover::{Cover, Way};
use crate::flow::Flow;
use def_flow::MAX_LENGTH;

/// Where one more of a chain saves no more than this on average, costs are taken whole: then prices move seldom.
const MOST_WHOLE: u64 = 256;

/// So they are where there are so few chains.
const FEW_CHAINS: u64 = 512;

/// How many bits a scale has more than the one before.
pub(crate) const FINER: u32 = 3;

/// How many bits of the costs are left out at first: where they are great, all but the first two of the greatest.
/// Linear.
pub(crate) fn first_scale(cover: &Cover) -> u32 {
    let (mut most, mut all) = (0u64, 0u64);
    for slope in &cover.slopes {
        most = most.max(slope.most_saved());
        all = all.saturating_add(slope.most_saved());
    }
    let chains = cover.slopes.len() as u64;
    if chains > FEW_CHAINS && all / MOST_WHOLE > chains {
        62u32.saturating_sub(most.leading_zeros())
    } else {
        0
    }
}

/// One behind so many bits.
fn unit(bits: u32) -> i64 {
    1i64 << bits.min(62)
}

impl Flow<'_> {
    /// Takes a mirrored flow to a finer scale: prices grow as costs do, and each chain gets the length nearest to its
    /// own at which no step costs less than nothing. Linear.
    pub(crate) fn refine(&mut self, scale: u32)
        ensures { self.new.cover.now ≡ self.old.cover.now }
    {
        let times = unit(self.scale.saturating_sub(scale));
        self.scale = scale;
        grow(&mut self.prices, times);
        for chain in 0..self.cover.slopes.len() {
            self.lengths[2 * chain] = self.fitting(chain);
        }
        self.weigh();
    }

    /// Twice the length of a chain, or the nearest at which neither one more nor one less costs less than nothing.
    fn fitting(&self, chain: usize) -> u64
        requires { chain < length self.now.cover.now.slopes.items }
    {
        let Way { plus, minus } = self.cover.way(2 * chain as u32);
        let gained = self.prices[plus as usize].saturating_sub(self.prices[minus as usize]);
        let (half, rest) = (gained.div_euclid(2), gained.rem_euclid(2));
        let slope = &self.cover.slopes[chain];
        let least = self.first_at(slope, half.saturating_add(rest));
        let most = self.first_at(slope, half.saturating_add(1));
        self.lengths[2 * chain].max(2 * least).min(2 * most)
    }

    /// The first length of a chain at which one more costs so much at the scale of a flow, as far as lengths go.
    fn first_at(&self, slope: &Slope, rise: i64) -> u64
        ensures { result ≤ MAX_LENGTH }
    {
        let first = slope.first_from(rise.saturating_mul(unit(self.scale)));
        first.unwrap_or(MAX_LENGTH).max(slope.floor).min(MAX_LENGTH)
    }
}

/// Prices so many times as great.
fn grow(prices: &mut [i64], times: i64)
    ensures { length prices.new ≡ length prices.old }
{
    for price in prices {
        *price = price.saturating_mul(times);
    }
}
