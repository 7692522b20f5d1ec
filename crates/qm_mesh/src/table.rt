//! The table that has each dart's partner: its twin, or the dart itself where it has none.

ghost use Rattle.std.specs.Prelude.{◌≡◌, ◌<◌, ◌==◌, ℕ, cond, length, Some, None, MatchBool, slice_index};
ghost use Rattle.def_mesh.specs.Darts.{prev_of};
ghost use Rattle.qm_mesh.specs.Pairs.{AreAllPaired, HasAlone};

use crate::darts::prev;

/// What the table has for d.
pub(crate) fn partner(twins: &[u32], d: u32) -> Option<u32>
    requires { d < length twins.now }
    ensures { result ≡ cond (slice_index twins.now d == d) None (Some (slice_index twins.now d)) }
{
    let twin = twins[d as usize];
    if twin == d { None } else { Some(twin) }
}

/// Whether the two edges at each of these corners have two darts.
pub(crate) fn all_paired(twins: &[u32], fan: &[u32]) -> bool
    requires darts { (t : ℕ) → t < length fan.now → slice_index fan.now t < length twins.now }
    requires before { (t : ℕ) → t < length fan.now → prev_of (slice_index fan.now t) < length twins.now }
    ensures { MatchBool result (AreAllPaired twins.now fan.now) (HasAlone twins.now fan.now) }
{
    for d in fan {
        let before = prev(*d);
        if twins[*d as usize] == *d || twins[before as usize] == before {
            return false;
        }
    }
    true
}
