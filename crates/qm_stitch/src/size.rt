//! How long the sides of patches are.

ghost use Rattle.std.specs.Prelude.{◌≡◌, ◌<◌, ◌-◌, length, slice_index};
ghost use Rattle.def_layout.specs.Gluings.{Way};
ghost use Rattle.def_layout.specs.Lengths.{size};
ghost use Rattle.def_layout.specs.Layouts.{way_number};
ghost use Rattle.qm_stitch.specs.Lengthened.{gluing_in, lengths_by};

use crate::numbered::Numbered;
use qm_offsets::starts_on;

/// The end of the last run.
pub(crate) fn last_of(starts: &[u32]) -> u32
    requires { 0 < length starts.now }
    ensures { result ≡ slice_index starts.now (length starts.now - 1) }
{
    starts[starts.len() - 1]
}

/// The length of a side of a patch.
pub(crate) fn size_at(numbered: &Numbered, patch: usize, side: usize) -> u32
    requires patch { patch < length numbered.now.t.now.patches.items }
    requires side { side < 4 }
    ensures { (way : Way) → way_number way ≡ side
        → result ≡ size (gluing_in numbered.now) (lengths_by numbered.now) patch way }
{
    last_of(starts_on(&numbered.tables.sides, patch, side))
}
