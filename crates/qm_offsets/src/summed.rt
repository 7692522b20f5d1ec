//! A layout and lengths of its arcs, to be summed along its sides.

ghost use Rattle.std.specs.Prelude.{◌≡◌, ◌<◌, ◌^◌, ℕ, length};
ghost use Rattle.def_layout.specs.Gluings.{Way};
ghost use Rattle.def_layout.specs.Lengths.{size};
ghost use Rattle.def_layout.specs.Layouts.{gluing_of, layout_of};
ghost use Rattle.def_remesh.specs.NewPoints.{lengths_in};
ghost use Rattle.def_known.specs.Sides.{AreSides};

use def_layout::TMesh;

/// A layout and lengths of its arcs, whose sums along sides are small.
#[derive(Clone, Copy)]
pub(crate) struct Summed<'a> {
    pub t: &'a TMesh,
    pub lengths: &'a [u32],
    ghost sides: { AreSides (layout_of t.now) },
    ghost long: { length lengths.now ≡ length t.now.arcs.items },
    ghost small: { (patch : ℕ) (side : Way) → patch < length t.now.patches.items
        → size (gluing_of (layout_of t.now)) (lengths_in lengths.now) patch side < 2 ^ 32 },
}
