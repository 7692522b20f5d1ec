//! Whether numbers are lengths of a layout.

ghost use Rattle.std.specs.Prelude.{◌≡◌, ◌<◌, ◌≤◌, ℕ, length, true};
ghost use Rattle.def_flow.specs.declared.limits.TheConstants.{MAX_LENGTH};
ghost use Rattle.def_layout.specs.Gluings.{Way};
ghost use Rattle.def_layout.specs.Lengths.{size};
ghost use Rattle.def_layout.specs.Layouts.{gluing_of, way_number};
ghost use Rattle.def_remesh.specs.NewPoints.{lengths_in};
ghost use Rattle.mesh_tests.specs.Fits.{AreEven, FitsLayout};

use def_flow::MAX_LENGTH;
use qm_offsets::size_on;
use qm_stages::CutMesh;

/// Whether these are lengths of a layout: one for each arc, from 1 to the limit, with equal sums on opposite sides.
pub(crate) fn are_lengths(cut: &CutMesh, lengths: &[u64]) -> bool
    ensures { result ≡ true → FitsLayout cut.now.layout lengths.now }
{
    lengths.len() == cut.layout().arcs.len() && are_short(lengths) && are_even(cut, lengths)
}

/// Whether all numbers are from 1 to the limit.
fn are_short(lengths: &[u64]) -> bool
    ensures some { result ≡ true → (arc : ℕ) → arc < length lengths.now → 0 < lengths_in lengths.now arc }
    ensures bounded { result ≡ true → (arc : ℕ) → lengths_in lengths.now arc ≤ MAX_LENGTH }
{
    for length in lengths {
        if *length == 0 || *length > MAX_LENGTH {
            return false;
        }
    }
    true
}

/// Whether opposite sides of each patch have equal sums.
fn are_even(cut: &CutMesh, lengths: &[u64]) -> bool
    requires long { length lengths.now ≡ length cut.now.layout.arcs }
    requires bounded { (arc : ℕ) → lengths_in lengths.now arc ≤ MAX_LENGTH }
    ensures { result ≡ true → (patch : ℕ) → patch < length cut.now.layout.patches
        → AreEven (gluing_of cut.now.layout) (lengths_in lengths.now) patch }
{
    for patch in 0..cut.layout().patches.len() {
        if !is_even(cut, patch, lengths) {
            return false;
        }
    }
    true
}

/// Whether opposite sides of a patch have equal sums.
fn is_even(cut: &CutMesh, patch: usize, lengths: &[u64]) -> bool
    requires patch { patch < length cut.now.layout.patches }
    requires long { length lengths.now ≡ length cut.now.layout.arcs }
    requires bounded { (arc : ℕ) → lengths_in lengths.now arc ≤ MAX_LENGTH }
    ensures { result ≡ true → AreEven (gluing_of cut.now.layout) (lengths_in lengths.now) patch }
{
    let south = sum_on(cut, patch, 0, lengths);
    let east = sum_on(cut, patch, 1, lengths);
    let north = sum_on(cut, patch, 2, lengths);
    let west = sum_on(cut, patch, 3, lengths);
    south == north && east == west
}

/// The sum on a side of a patch.
fn sum_on(cut: &CutMesh, patch: usize, side: usize, lengths: &[u64]) -> u64
    requires patch { patch < length cut.now.layout.patches }
    requires side { side < 4 }
    requires long { length lengths.now ≡ length cut.now.layout.arcs }
    requires bounded { (arc : ℕ) → lengths_in lengths.now arc ≤ MAX_LENGTH }
    ensures { (way : Way) → way_number way ≡ side
        → result ≡ size (gluing_of cut.now.layout) (lengths_in lengths.now) patch way }
{
    size_on(cut.layout(), patch, side, lengths)
}
