//! How long the sides of patches are at given lengths.

ghost use Rattle.std.specs.Prelude.{◌≡◌, ◌<◌, ◌≤◌, ◌^◌, ℕ, length};
ghost use Rattle.std.specs.List.{All};
ghost use Rattle.def_flow.specs.declared.limits.TheConstants.{MAX_LENGTH};
ghost use Rattle.def_math.specs.Counts.{count_below};
ghost use Rattle.def_layout.specs.Gluings.{Way};
ghost use Rattle.def_layout.specs.Lengths.{size};
ghost use Rattle.def_layout.specs.Layouts.{gluing_of, way_number, layout_of};
ghost use Rattle.def_layout.specs.declared.tmesh.SideArc.{SideArc as Used};
ghost use Rattle.def_layoutnet.specs.MeshLayouts.{IsSomeLayout};
ghost use Rattle.def_remesh.specs.NewPoints.{lengths_in};
ghost use Rattle.def_remesh.specs.Numberings.{sizes_on};

use crate::sides::side_of;
use def_layout::{SideArc, TMesh};

/// The length of a side.
fn size_of(side: &[SideArc], lengths: &[u64]) -> u64
    requires low { All (λ (used : Used). used.arc < length lengths.now) side.now }
    requires small { count_below (sizes_on side.now (lengths_in lengths.now)) (length side.now) < 2 ^ 64 }
    ensures { result ≡ count_below (sizes_on side.now (lengths_in lengths.now)) (length side.now) }
{
    let mut size = 0;
    for used in side {
        size += lengths[used.arc as usize];
    }
    size
}

/// The length of a side of a patch: 0 is south, 1 east, 2 north and 3 west. Linear in the arcs on it.
pub fn size_on(t: &TMesh, patch: usize, side: usize, lengths: &[u64]) -> u64
    requires layout { IsSomeLayout (layout_of t.now) }
    requires patch { patch < length t.now.patches.items }
    requires side { side < 4 }
    requires long { length lengths.now ≡ length t.now.arcs.items }
    requires bounded { (arc : ℕ) → lengths_in lengths.now arc ≤ MAX_LENGTH }
    ensures { (way : Way) → way_number way ≡ side
        → result ≡ size (gluing_of (layout_of t.now)) (lengths_in lengths.now) patch way }
{
    size_of(side_of(t, patch, side), lengths)
}
