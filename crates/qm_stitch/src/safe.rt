//! Lengths that double no edge, whatever the layout.

ghost use Rattle.std.specs.Prelude.{◌≡◌, ◌<◌, ◌≤◌, ◌↔◌, ℕ, length, IsTrue};
ghost use Rattle.def_layout.specs.Arcs.{long_at};
ghost use Rattle.def_layout.specs.Layouts.{layout_of};
ghost use Rattle.def_remesh.specs.NewPoints.{lengths_in, multiple_of};
ghost use Rattle.def_remesh.specs.Stitched.{AreMultiples, AreSafe};

use crate::stretched::Stretched;

/// Whether all lengths are at least 3, or are the old ones, so many times. Linear in the arcs.
pub(crate) fn are_safe(stretched: &Stretched) -> bool
    ensures { IsTrue result ↔ AreSafe (layout_of stretched.now.t.now) (lengths_in stretched.now.lengths.now) }
{
    are_long(stretched.lengths) || are_multiples(stretched)
}

/// Whether all lengths are at least 3.
fn are_long(lengths: &[u64]) -> bool
    ensures { IsTrue result ↔ ((arc : ℕ) → arc < length lengths.now → 3 ≤ lengths_in lengths.now arc) }
{
    for length in lengths {
        if *length < 3 {
            return false;
        }
    }
    true
}

/// Whether all lengths are the old ones, so many times.
fn are_multiples(stretched: &Stretched) -> bool
    ensures { IsTrue result ↔ AreMultiples (layout_of stretched.now.t.now) (lengths_in stretched.now.lengths.now) }
{
    if stretched.lengths.is_empty() {
        return true;
    }
    let old = stretched.t.arcs[0].darts.len() as u64;
    old > 0 && are_times(stretched, stretched.lengths[0] / old)
}

/// Whether all lengths are so many times the old ones.
fn are_times(stretched: &Stretched, by: u64) -> bool
    ensures { IsTrue result ↔ ((arc : ℕ) → arc < length stretched.now.lengths.now
        → lengths_in stretched.now.lengths.now arc
        ≡ multiple_of by (long_at (layout_of stretched.now.t.now).arcs) arc) }
{
    for arc in 0..stretched.lengths.len() {
        let old = stretched.t.arcs[arc].darts.len();
        if u128::from(stretched.lengths[arc]) != u128::from(by) * old as u128 {
            return false;
        }
    }
    true
}
