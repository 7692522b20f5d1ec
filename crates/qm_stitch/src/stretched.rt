//! A layout and new lengths of its arcs.

ghost use Rattle.std.specs.Prelude.{◌≡◌, ◌≤◌, ℕ, length};
ghost use Rattle.def_flow.specs.declared.limits.TheConstants.{MAX_LENGTH};
ghost use Rattle.def_layout.specs.Lengths.{AreLengths};
ghost use Rattle.def_layout.specs.Layouts.{gluing_of, layout_of};
ghost use Rattle.def_remesh.specs.NewPoints.{lengths_in};

use def_layout::TMesh;

/// A layout and new lengths of its arcs: one for each, from 1 to the limit, with equal sums on opposite sides of each
/// patch.
#[derive(Clone, Copy)]
pub(crate) struct Stretched<'a> {
    pub t: &'a TMesh,
    pub lengths: &'a [u64],
    ghost long: { length lengths.now ≡ length t.now.arcs.items },
    ghost even: { AreLengths (gluing_of (layout_of t.now)) (lengths_in lengths.now) },
    ghost bounded: { (arc : ℕ) → lengths_in lengths.now arc ≤ MAX_LENGTH },
}
