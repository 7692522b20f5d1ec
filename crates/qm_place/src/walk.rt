//! Walks along the old edges of an arc, from one of its new points to the next.

ghost use Rattle.std.specs.Prelude.{◌≡◌, ◌<◌, ◌^◌, length};
ghost use Rattle.def_written.specs.Spacings.{inner_step, step_parameter};
ghost use Rattle.qm_place.specs.Walks.{share_in, HasReached};

use crate::path::{Path, share_of};
use crate::ways::EDGE;

/// Where a walk along a path has come to: so many shares lie before this old edge.
#[derive(Clone, Copy)]
pub(crate) struct Reached {
    edge: usize,
    before: u128,
}

impl Reached {
    /// Its beginning.
    pub(crate) fn new() -> Reached
        ensures { result ≡ record { edge = 0; before = 0 } }
    {
        Reached { edge: 0, before: 0 }
    }
}

/// The share of an old edge of a path.
fn share_at(path: &Path, edge: usize) -> u64
    requires { edge < length path.now.darts.now }
    ensures value { result ≡ share_in path.now edge }
    ensures small { result < 2 ^ 62 }
{
    if path.alike {
        1
    } else {
        share_of(path.shares, path.darts[edge])
    }
}

/// Where place k of so many lies between the ends of a path, reached from one before it.
pub(crate) fn reach(path: &Path, from: Reached, k: u32, new: u32) -> Reached
    requires place { k < new }
    requires from { HasReached path.now from k new }
    ensures reached { HasReached path.now result k new }
    ensures edge { result.edge ≡ (inner_step (share_in path.now) (length path.now.darts.now) new k).edge }
{
    let mut at = from;
    let wish = u128::from(k) * path.all;
    let mut share = share_at(path, at.edge);
    'edges: while u128::from(new) * (at.before + u128::from(share)) <= wish {
        at = Reached {
            edge: at.edge + 1,
            before: at.before + u128::from(share),
        };
        share = share_at(path, at.edge);
    }
    at
}

/// The parameter of place k of so many, which is reached.
pub(crate) fn parameter_at(path: &Path, at: Reached, k: u32, new: u32) -> u64
    requires place { k < new }
    requires reached { HasReached path.now at k new }
    requires edge { at.edge ≡ (inner_step (share_in path.now) (length path.now.darts.now) new k).edge }
    ensures { result ≡ step_parameter (inner_step (share_in path.now) (length path.now.darts.now) new k) }
{
    let rest = u128::from(k) * path.all - u128::from(new) * at.before;
    let whole = u128::from(new) * u128::from(share_at(path, at.edge));
    EDGE * at.edge as u64 + (u128::from(EDGE) * rest / whole) as u64
}
