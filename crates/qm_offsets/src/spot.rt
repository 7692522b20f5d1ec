//! Searches in tables of starts.

ghost use Rattle.std.specs.Prelude.{◌≡◌, ◌≤◌, ◌<◌, ◌+◌, ℕ, length, slice_index, true};
ghost use Rattle.def_math.specs.Counts.{count_below};
ghost use Rattle.def_math.specs.Runs.{run_at};
ghost use Rattle.def_remesh.specs.Numberings.{AreRunStarts};

/// Which run holds a place: the last one that begins at or before it. Logarithmic.
pub fn spot_in(starts: &[u32], place: u32) -> usize
    requires { 1 < length starts.now }
    ensures low { result + 1 < length starts.now }
    ensures run { (sizes : ℕ → ℕ) (runs : ℕ) → AreRunStarts sizes runs starts.now
        → result ≡ run_at (count_below sizes) runs place }
{
    let mut low = 0;
    let mut high = starts.len() - 1;
    'halves: while high - low > 1 {
        let middle = low + (high - low) / 2;
        if starts[middle] <= place {
            low = middle;
        } else {
            high = middle;
        }
    }
    low
}

/// The same, found at once where the run that is near, or the next one, holds the place. Else logarithmic.
pub fn spot_near(starts: &[u32], place: u32, near: usize) -> usize
    requires { 1 < length starts.now }
    ensures low { result + 1 < length starts.now }
    ensures run { (sizes : ℕ → ℕ) (runs : ℕ) → AreRunStarts sizes runs starts.now
        → result ≡ run_at (count_below sizes) runs place }
{
    if holds(starts, place, near) {
        return near;
    }
    let next = near.saturating_add(1);
    if holds(starts, place, next) {
        return next;
    }
    spot_in(starts, place)
}

/// Whether a run holds a place.
fn holds(starts: &[u32], place: u32, run: usize) -> bool
    ensures { result ≡ true → (run + 1 < length starts.now) × (slice_index starts.now run ≤ place)
        × (place < slice_index starts.now (run + 1)) }
{
    match starts.get(run) {
        Some(begin) if *begin <= place => match starts.get(run.saturating_add(1)) {
            Some(end) => place < *end,
            None => false,
        },
        _ => false,
    }
}
