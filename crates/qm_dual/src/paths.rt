//! The paths into which nested sets fall, and the least set around two.

ghost use Rattle.std.specs.Prelude.{◌≡◌, ◌+◌, ◌-◌, ◌^◌, ◌<◌, ◌≤◌, ◌≢◌, ◌==◌, ◌&&◌, not, if◌then◌else◌, length};
ghost use Rattle.std.specs.Prelude.{slice_index, IfOk};
ghost use Rattle.qm_dual.specs.Nest.{AreHeads, ArePicks, IsMeeting, HaveSameSets, left, pick_with};

use crate::check::Memory;
use crate::nest::{Nested, Numbered, set_around_set};
use std::alloc::Global;

/// The paths into which the sets fall: each set's entry names the head of its path, from 1. A path goes from a set to
/// the set around it as long as that holds no greater set, so climbing leaves one path for another at most as often as
/// the size of a set doubles. Linear in the sets.
pub(crate) fn path_heads(alloc: Global, sized: &Numbered) -> Result<Vec<u32>, Memory>
    ensures { IfOk result (λ heads.
        AreHeads sized.now.d.n (length sized.now.d.whole.now.z.items) sized.now.d.whole.now.up.items heads.items) }
{
    let picks = greatest_inside(alloc, sized)?;
    let picking = Numbered {
        d: sized.d,
        numbers: &picks,
    };
    heads_by(alloc, &picking)
}

/// The heads, where each set picks one inside it.
fn heads_by(alloc: Global, picking: &Numbered) -> Result<Vec<u32>, Memory>
    ensures { IfOk result (λ heads.
        AreHeads picking.now.d.n (length picking.now.d.whole.now.z.items) picking.now.d.whole.now.up.items
        heads.items) }
{
    let mut heads = vec![in alloc; 0u32; picking.d.whole.z.len()]?;
    let mut k = picking.d.whole.z.len();
    while k > 0 {
        k -= 1;
        let around = set_around_set(&picking.d, k);
        heads[k] = head_of(picking.numbers, &heads, around, k as u32);
    }
    Ok(heads)
}

/// The head of a set: that of the set around it if this picks the set, or else the set itself.
fn head_of(picks: &[u32], heads: &[u32], entry: u32, set: u32) -> u32
    requires picked { entry ≤ length picks.now }
    requires headed { entry ≤ length heads.now }
    requires few { set < 2 ^ 30 }
    ensures { result
        ≡ (if slice_index picks.now (entry - 1) == set + 1 && not (entry == 0)
        then slice_index heads.now (entry - 1) else set + 1) }
{
    if entry != 0 && picks[entry as usize - 1] == set + 1 {
        heads[entry as usize - 1]
    } else {
        set + 1
    }
}

/// For each set the greatest of the sets directly inside it, from 1, or 0 if there is none.
fn greatest_inside(alloc: Global, sized: &Numbered) -> Result<Vec<u32>, Memory>
    ensures { IfOk result (λ picks.
        ArePicks sized.now.d.n (length sized.now.d.whole.now.z.items) (length sized.now.d.whole.now.z.items)
        sized.now.d.whole.now.up.items sized.now.numbers.now picks.items) }
{
    let mut picks = vec![in alloc; 0u32; sized.d.whole.z.len()]?;
    for k in 0..sized.d.whole.z.len() {
        let entry = set_around_set(&sized.d, k);
        if entry != 0 {
            let place = entry as usize - 1;
            picks[place] = greater(sized, picks[place], k as u32);
        }
    }
    Ok(picks)
}

/// The set `k` where it is greater than its rival, or the rival, both from 1. No rival is 0.
fn greater(sized: &Numbered, rival: u32, k: u32) -> u32
    requires inner { k < length sized.now.numbers.now }
    requires named { rival ≤ length sized.now.numbers.now }
    ensures { result ≡ pick_with sized.now.numbers.now rival k }
{
    let sizes = sized.numbers;
    if rival == 0 || sizes[rival as usize - 1] < sizes[k as usize] {
        k + 1
    } else {
        rival
    }
}

/// The least set around two entries of `up`, from 1, or 0 if there is none. It climbs by paths, so in a number of
/// turns that is logarithmic in the number of vertices.
pub(crate) fn meeting(d: &Nested, heads: &[u32], a: u32, b: u32) -> u32
    requires headed { AreHeads d.now.n (length d.now.whole.now.z.items) d.now.whole.now.up.items heads.now }
    requires first { a ≤ length d.now.whole.now.z.items }
    requires second { b ≤ length d.now.whole.now.z.items }
    ensures low { result ≤ length d.now.whole.now.z.items }
    ensures least { IsMeeting d.now.n (length d.now.whole.now.z.items) d.now.whole.now.up.items a b result }
{
    let mut first = a;
    let mut second = b;
    while first != 0 && second != 0 && heads[first as usize - 1] != heads[second as usize - 1] {
        (first, second) = leave_path(d, heads, first, second);
    }
    if first == 0 || second == 0 {
        0
    } else {
        first.max(second)
    }
}

/// Two entries, of which the one with the lower head has left its path.
fn leave_path(d: &Nested, heads: &[u32], a: u32, b: u32) -> (u32, u32)
    requires headed { AreHeads d.now.n (length d.now.whole.now.z.items) d.now.whole.now.up.items heads.now }
    requires first { (a ≢ 0) × (a ≤ length d.now.whole.now.z.items) }
    requires second { (b ≢ 0) × (b ≤ length d.now.whole.now.z.items) }
    requires apart { slice_index heads.now (a - 1) ≢ slice_index heads.now (b - 1) }
    ensures low { (result.0 ≤ length d.now.whole.now.z.items) × (result.1 ≤ length d.now.whole.now.z.items) }
    ensures same { HaveSameSets d.now.n (length d.now.whole.now.z.items) d.now.whole.now.up.items a b
        result.0 result.1 }
    ensures less { left (length d.now.whole.now.z.items) result.0 + left (length d.now.whole.now.z.items) result.1
        < left (length d.now.whole.now.z.items) a + left (length d.now.whole.now.z.items) b }
{
    if heads[a as usize - 1] < heads[b as usize - 1] {
        (past_head(d, heads, a), b)
    } else {
        (a, past_head(d, heads, b))
    }
}

/// The entry of the head of the path on which the set of an entry lies.
fn past_head(d: &Nested, heads: &[u32], entry: u32) -> u32
    requires headed { AreHeads d.now.n (length d.now.whole.now.z.items) d.now.whole.now.up.items heads.now }
    requires named { (entry ≢ 0) × (entry ≤ length d.now.whole.now.z.items) }
    ensures value { result ≡ slice_index d.now.whole.now.up.items (d.now.n + (slice_index heads.now (entry - 1) - 1)) }
    ensures low { result ≤ length d.now.whole.now.z.items }
    ensures less { left (length d.now.whole.now.z.items) result < left (length d.now.whole.now.z.items) entry }
{
    set_around_set(d, head_above(d, heads, entry) as usize - 1)
}

/// The head of the path on which the set of an entry lies, from 1.
fn head_above(d: &Nested, heads: &[u32], entry: u32) -> u32
    requires headed { AreHeads d.now.n (length d.now.whole.now.z.items) d.now.whole.now.up.items heads.now }
    requires named { (entry ≢ 0) × (entry ≤ length d.now.whole.now.z.items) }
    ensures value { result ≡ slice_index heads.now (entry - 1) }
    ensures later { (entry ≤ result) × (result ≤ length d.now.whole.now.z.items) }
{
    heads[entry as usize - 1]
}
