//! Lengths that double an edge, with what one edge more on each arc costs.

ghost use Rattle.std.specs.Prelude.{◌≡◌, ◌<◌, ◌≤◌, ◌^◌, ℕ, length};
ghost use Rattle.def_flow.specs.declared.limits.TheConstants.{MAX_FLOOR};
ghost use Rattle.def_remesh.specs.NewPoints.{lengths_in};

use crate::keyed::Keyed;

/// A layout that is numbered at these lengths, of which some are short, with its keys and what one edge more on each
/// arc costs.
#[derive(Clone, Copy)]
pub struct Priced<'a, 'b, 'c> {
    pub(crate) keyed: Keyed<'a>,
    pub(crate) lengths: &'b [u64],
    pub(crate) prices: &'c [i64],
    ghost same: { keyed.numbered.tables.now.lengths.items ≡ lengths.now },
    ghost few: { length lengths.now < 2 ^ 32 },
    ghost short: { ¬ ((arc : ℕ) → arc < length lengths.now → MAX_FLOOR ≤ lengths_in lengths.now arc) },
    ghost many: { length prices.now ≡ length keyed.numbered.t.now.arcs.items },
}
