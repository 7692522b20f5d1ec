//! A tournament of keys: the least is at its root.

ghost use Rattle.std.specs.Prelude.{◌≡◌, ◌+◌, ◌-◌, ◌*◌, ◌^◌, ◌<◌, ◌≤◌, ℕ, length, replicate, slice_index, slice_set};
ghost use Rattle.std.specs.Prelude.{IfOk, All};
ghost use Rattle.qm_tour.specs.Trees.{IsLeastBelow, IsTree, IsTreeBut, HasSameLeaves, parent};

use std::alloc::{AllocError, Global};
use std::marker::Model;

/// Want of memory.
pub type Memory = AllocError;

/// Keys, seen as their list. The key `u64::MAX` stands for none.
///
/// A flat tree: each node has the least of the keys of its children, of which node `k` has up to eight, from node
/// `8 k - 34` on. The root is node 5: where memory begins as the C library lets it begin, the children of a node then
/// lie in one line of a cache. The leaves are the nodes from `first` on.
/// The coin decides between leaves of one least key. It stands for some time, in which ties lead to one part of the
/// tree, whose nodes are at hand. It begins alike in each tournament, so that runs on the same keys are alike.
#[derive(Drop)]
pub struct Tour {
    keys: Vec<u64>,
    first: usize,
    coin: u64,
    sets: u32,
}

/// The first node.
const ROOT: usize = 5;

/// How many children a node has.
const WIDTH: usize = 8;

/// What lies between `8 k` and the first child of node `k`.
const OFFSET: usize = 34;

/// What the coin of a new tournament shows.
const FIRST_COIN: u64 = 0x9e37_79b9_7f4a_7c15;

/// The coin is tossed after each so many calls of `set`.
const STANDING: u32 = 1_024;

impl Model for Tour {
    ghost use Rattle.std.specs.Prelude.{ℕ, List, drop};
    ghost use Rattle.qm_tour.specs.Trees.{IsTree};

    ghost Value = { List ℕ };

    ghost view = { λ t. drop t.first t.keys.items };

    ghost invariant = { λ t. IsTree t.first t.keys.items };
}

impl Tour {
    /// A tournament of so many leaves without a key.
    #[tactic(auto, using(crate::proofs::Mended::blank))]
    pub fn new(alloc: Global, room: usize) -> Result<Tour, Memory>
        requires some { 1 ≤ room }
        requires few { room ≤ 2 ^ 32 }
        ensures { IfOk result (λ t. t ≡ replicate room (2 ^ 64 - 1)) }
    {
        let first = (room + 40) / 7;
        Ok(Tour {
            keys: vec![in alloc; u64::MAX; first + room]?,
            first,
            coin: FIRST_COIN,
            sets: 0,
        })
    }

    /// A leaf whose key is the least. Which of several is left to the coin: a search that takes equal keys in a fixed
    /// order runs over a whole plateau of equal costs before it turns to an edge that is near.
    #[tactic(auto, using(crate::proofs::Mended::leaf_least))]
    pub fn least_leaf(&self) -> usize
        ensures low { result < length self.now }
        ensures least { All (λ key. slice_index self.now result ≤ key) self.now }
    {
        descend(&self.keys, self.first, self.coin) - self.first
    }

    /// The key of a leaf.
    pub fn key(&self, leaf: usize) -> u64
        requires { leaf < length self.now }
        ensures { result ≡ slice_index self.now leaf }
    {
        self.keys[self.first + leaf]
    }

    /// Sets the key of a leaf.
    pub fn set(&mut self, leaf: usize, key: u64)
        requires { leaf < length self.old }
        ensures { self.new ≡ slice_set self.old leaf key }
    {
        self.count();
        let place = self.first + leaf;
        if self.keys[place] != key {
            self.keys[place] = key;
            settle(&mut self.keys, self.first, (place + OFFSET) / WIDTH);
        }
    }

    /// Counts a call of `set`, and tosses the coin when it has stood long enough.
    fn count(&mut self)
        ensures { self.new ≡ self.old }
    {
        self.sets = self.sets.wrapping_add(1);
        if self.sets % STANDING == 0 {
            self.coin = toss(self.coin);
        }
    }
}

/// Mends the nodes from one up to the root, below which all are in order. It stops at the first that keeps its key.
fn settle(keys: &mut [u64], first: usize, from: usize)
    requires tree { IsTreeBut first from keys.old }
    requires low { from < first }
    ensures tree { IsTree first keys.new }
    ensures leaves { HasSameLeaves first keys.old keys.new }
{
    let mut node = from;
    while node >= ROOT {
        let least = least_below(keys, node);
        if keys[node] == least {
            return;
        }
        keys[node] = least;
        node = (node + OFFSET) / WIDTH;
    }
}

/// The least of the keys of a node's children.
fn least_below(keys: &[u64], node: usize) -> u64
    requires root { 5 ≤ node }
    requires few { length keys.now ≤ 2 ^ 33 }
    requires child { 8 * node < length keys.now + 34 }
    ensures { IsLeastBelow keys.now node result }
{
    let from = WIDTH * node - OFFSET;
    let end = (from + WIDTH).min(keys.len());
    let mut least = keys[from];
    for k in from + 1..end {
        least = least.min(keys[k]);
    }
    least
}

/// The coin after one more toss: the shift register of Marsaglia's "Xorshift RNGs" (2003).
fn toss(coin: u64) -> u64 {
    let left = coin ^ (coin << 13);
    let right = left ^ (left >> 7);
    right ^ (right << 17)
}

/// A leaf with the key of the root. Where several ways down have it, the coin's last bits say where to look first, and
/// are used up.
fn descend(keys: &[u64], first: usize, coin: u64) -> usize
    requires { IsTree first keys.now }
    ensures low { (first ≤ result) × (result < length keys.now) }
    ensures least { slice_index keys.now result ≡ slice_index keys.now 5 }
{
    let mut node = ROOT;
    let mut bits = coin;
    'levels: while node < first {
        node = child_alike(keys, node, (bits % 8) as usize);
        bits /= 8;
    }
    node
}

/// A child with the key of its node: the first from a turn on, else the first of all.
fn child_alike(keys: &[u64], node: usize, turn: usize) -> usize
    requires root { 5 ≤ node }
    requires few { length keys.now ≤ 2 ^ 33 }
    requires node { node < length keys.now }
    requires least { IsLeastBelow keys.now node (slice_index keys.now node) }
    requires turn { turn < 8 }
    ensures below { (result < length keys.now) × (parent result ≡ node) }
    ensures alike { slice_index keys.now result ≡ slice_index keys.now node }
{
    let from = WIDTH * node - OFFSET;
    let end = (from + WIDTH).min(keys.len());
    let key = keys[node];
    for k in from + turn..end {
        if keys[k] == key {
            return k;
        }
    }
    let mut k = from;
    'others: while keys[k] != key {
        k += 1;
    }
    k
}
