//! Reading `up`.

ghost use Rattle.std.specs.Prelude.{◌≡◌, ◌+◌, ◌<◌, ◌≤◌, ◌⊎◌, length, slice_index};
ghost use Rattle.def_matching.specs.Dual.{dual, IsSmallDual};
ghost use Rattle.qm_dual.specs.Nest.{IsNest};

use def_matching::Dual;

/// A dual over so many vertices: its lists have the right lengths, its sets are nested, and its numbers are small.
#[derive(Clone, Copy)]
pub(crate) struct Nested<'a> {
    pub n: u32,
    pub whole: &'a Dual,
    ghost numbers: { length whole.now.y.items ≡ n },
    ghost nest: { IsNest n (dual whole.now) },
    ghost small: { IsSmallDual (dual whole.now) },
}

/// For each set of a dual a number.
#[derive(Clone, Copy)]
pub(crate) struct Numbered<'d, 'n> {
    pub d: Nested<'d>,
    pub numbers: &'n [u32],
    ghost same: { length numbers.now ≡ length d.whole.now.z.items },
}

/// The smallest set around a vertex, from 1, or 0 if there is none.
pub(crate) fn set_around_vertex(d: &Nested, v: u32) -> u32
    requires { v < d.now.n }
    ensures value { result ≡ slice_index d.now.whole.now.up.items v }
    ensures low { result ≤ length d.now.whole.now.z.items }
{
    d.whole.up[v as usize]
}

/// The smallest set around a set, from 1, or 0 if there is none.
pub(crate) fn set_around_set(d: &Nested, k: usize) -> u32
    requires { k < length d.now.whole.now.z.items }
    ensures value { result ≡ slice_index d.now.whole.now.up.items (d.now.n + k) }
    ensures later { (result ≡ 0) ⊎ ((k + 1 < result) × (result ≤ length d.now.whole.now.z.items)) }
{
    d.whole.up[d.n as usize + k]
}
