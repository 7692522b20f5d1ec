//! The least key that tells of a doubled edge.

ghost use Rattle.std.specs.Prelude.{◌≡◌, ◌<◌, ◌+◌, ◌-◌, ◌*◌, ◌/◌, ◌%◌, ◌^◌, ℕ, length, IfSome, IsNone};
ghost use Rattle.std.specs.Prelude.{◌↔◌, IsTrue};
ghost use Rattle.std.specs.List.Sorted.{IsNonDecreasing, IsPermutation};
ghost use Rattle.qm_stitch.specs.Rims.{is_repeat_at, pair_key, IsLeastRepeat, IsRepeat};

use crate::keyed::Keyed;

/// The number of keys of one first vertex.
const SPAN: u64 = 4_294_967_296;

/// The key of two vertices: the lesser one, then the greater one, so that keys are ordered as pairs are.
pub(crate) fn key_for(u: u32, v: u32) -> u64
    ensures { result ≡ pair_key u v }
{
    u64::from(u.min(v)) * SPAN + u64::from(u.max(v))
}

/// The lesser vertex of a key.
pub(crate) fn lesser(key: u64) -> u32
    ensures { result ≡ key / 2 ^ 32 }
{
    (key / SPAN) as u32
}

/// The greater vertex of a key.
pub(crate) fn greater(key: u64) -> u32
    ensures { result ≡ key % 2 ^ 32 }
{
    (key % SPAN) as u32
}

/// The least key with two equal vertices or of two edges. n log n.
pub(crate) fn least_repeat(keys: Vec<u64>) -> Option<u64>
    ensures some { IfSome result (IsLeastRepeat keys.items) }
    ensures none { IsNone result → (key : ℕ) → ¬ IsRepeat keys.items key }
{
    let mut sorted = keys;
    sort(&mut sorted);
    first_repeat(&sorted)
}

/// Sorts keys.
pub(crate) fn sort(keys: &mut Vec<u64>)
    ensures moved { IsPermutation keys.old.items keys.new.items }
    ensures increasing { IsNonDecreasing keys.new.items }
{
    keys.sort_unstable();
}

/// The first key with two equal vertices, or of two edges, of keys that rise.
#[tactic(auto, using(crate::proofs::Repeats::first_is))]
fn first_repeat(keys: &[u64]) -> Option<u64>
    requires { IsNonDecreasing keys.now }
    ensures some { IfSome result (IsLeastRepeat keys.now) }
    ensures none { IsNone result → (key : ℕ) → ¬ IsRepeat keys.now key }
{
    for place in 0..keys.len() {
        if is_at(keys, place) {
            return Some(keys[place]);
        }
    }
    None
}

/// Whether a key with two equal vertices, or of two edges, is among the keys. Logarithmic.
pub(crate) fn is_repeat(keyed: &Keyed, key: u64) -> bool
    ensures { IsTrue result ↔ IsRepeat keyed.now.keys.now key }
{
    let keys = keyed.keys;
    match keys.binary_search(&key) {
        Ok(place) => is_at(keys, place) || (place > 0 && keys[place - 1] == key),
        Err(_) => false,
    }
}

/// Whether the key at a place has two equal vertices or stands at the next place, too.
fn is_at(keys: &[u64], place: usize) -> bool
    requires { place < length keys.now }
    ensures { result ≡ is_repeat_at keys.now place }
{
    let key = keys[place];
    key / SPAN == key % SPAN || (place + 1 < keys.len() && keys[place + 1] == key)
}
