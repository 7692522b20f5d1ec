//! What an arc costs by its length, and what the arcs of a chain cost together.

ghost use Rattle.std.specs.Prelude.{◌*◌, ◌^◌, ◌≤◌, length};
ghost use Rattle.qm_warmstart.specs.Tables.{AreBelow};

use crate::Memory;
use crate::small_net::SmallNet;
use std::alloc::Global;

/// The cost of an arc: its weight times how far `q` times its length is from `p` times its old one.
#[derive(Clone, Copy, Debug, PartialEq, Eq)]
pub(crate) struct Cost {
    pub(crate) weight: u16,
    pub(crate) p: u16,
    pub(crate) q: u16,
    pub(crate) old: u32,
}

impl Cost {
    /// What `q` times the length should be.
    fn target(&self) -> u64
        ensures { result ≤ 2 ^ 48 }
    {
        u64::from(self.p) * u64::from(self.old)
    }

    /// What one more costs at this length: the part of the step that is below what is wanted lowers the cost, and the
    /// rest raises it.
    pub(crate) fn rise(&self, length: u64) -> i64 {
        let q = u128::from(self.q);
        let short = u128::from(self.target()).saturating_sub(q * u128::from(length));
        let below = if short < q {
            short as i64
        } else {
            i64::from(self.q)
        };
        i64::from(self.weight) * (i64::from(self.q) - 2 * below)
    }
}

/// From a length on, one more costs so much.
#[derive(Clone, Copy, Debug, PartialEq, Eq)]
pub(crate) struct Turn {
    pub(crate) from: u64,
    pub(crate) rise: i64,
}

/// What one more costs at each length, for all arcs of a chain together: before the first turn, and from each turn on
/// to the next.
#[derive(Debug, Drop)]
pub(crate) struct Slope {
    /// The least length, the greatest floor of the arcs.
    pub(crate) floor: u64,
    before: i64,
    turns: Vec<Turn>,
}

impl Slope {
    /// What one more costs at this length. Logarithmic in the turns.
    pub(crate) fn rise(&self, length: u64) -> i64 {
        let turns = self.turns.as_slice();
        let passed = turns.partition_point(|turn| turn.from <= length);
        if passed == 0 {
            self.before
        } else {
            turns[passed - 1].rise
        }
    }

    /// The length of least cost that is at least the floor, and the longest of these.
    pub(crate) fn least(&self) -> u64
        ensures { self.now.floor ≤ result }
    {
        self.floor.max(self.first_from(1).unwrap_or(self.floor))
    }

    /// The first length at which one more costs at least so much, if there is one. Logarithmic in the turns.
    pub(crate) fn first_from(&self, rise: i64) -> Option<u64> {
        if self.before >= rise {
            return Some(0);
        }
        let turns = self.turns.as_slice();
        let less = turns.partition_point(|turn| turn.rise < rise);
        turns.get(less).map(|turn| turn.from)
    }

    /// The most that one more saves at any length.
    pub(crate) fn most_saved(&self) -> u64 {
        self.before.min(0).unsigned_abs()
    }
}

/// What one more costs by how long a chain is, its arcs told by their ends.
pub(crate) fn slope_of(alloc: Global, net: SmallNet<'_>, chain: &[u32]) -> Result<Slope, Memory>
    requires { AreBelow (2 * length net.whole.now.arcs.items) chain.now }
{
    let mut bends = Vec::with_capacity(alloc, chain.len().saturating_mul(2))?;
    let mut before = 0i64;
    let mut floor = 1u64;
    for end in chain {
        floor = floor.max(u64::from(net.floor(*end)));
        let cost = net.cost(*end);
        let most = i64::from(cost.weight) * i64::from(cost.q);
        // One more costs least up to what is wanted, most beyond it, and something between on the step across.
        let across = cost.target() / u64::from(cost.q);
        let rise = cost.rise(across);
        before = before.saturating_sub(most);
        bends.push((across, rise.saturating_add(most)))?;
        bends.push((across + 1, most.saturating_sub(rise)))?;
    }
    bends.sort_unstable();
    let turns = turns_of(alloc, before, &bends)?;
    Ok(Slope {
        floor,
        before,
        turns,
    })
}

/// The turns where what one more costs grows so much at each bend, given in order of their lengths.
fn turns_of(alloc: Global, before: i64, bends: &[(u64, i64)]) -> Result<Vec<Turn>, Memory> {
    let mut turns = Vec::new(alloc);
    let mut rise = before;
    for (k, (from, more)) in bends.iter().enumerate() {
        rise = rise.saturating_add(*more);
        if k + 1 == bends.len() || bends[k + 1].0 != *from {
            turns.push(Turn { from: *from, rise })?;
        }
    }
    Ok(turns)
}
