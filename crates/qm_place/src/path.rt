//! The old edges of an arc with their shares, along which its new points are spaced.

ghost use Rattle.std.specs.Prelude.{◌≡◌, ◌<◌, ◌≤◌, ◌==◌, ◌^◌, false, length};
ghost use Rattle.def_math.specs.Counts.{count_below};
ghost use Rattle.qm_place.specs.Paths.{share_by, share_on};

use def_remesh::{DartShares, EDGE_SHARE};

/// The darts of an arc: some, and not too many.
#[derive(Clone, Copy)]
pub(crate) struct ArcDarts<'a> {
    pub all: &'a [u32],
    ghost some: { 0 < length all.now },
    ghost few: { length all.now ≤ 2 ^ 21 },
}

/// The darts of an arc with the shares of all darts, or with equal ones, and what those of the arc add up to.
#[derive(Clone, Copy)]
pub(crate) struct Path<'a> {
    pub darts: &'a [u32],
    pub shares: &'a DartShares,
    pub alike: bool,
    pub all: u128,
    ghost long: { length darts.now ≤ 2 ^ 21 },
    ghost whole: { all ≡ count_below (share_by darts.now shares.now alike) (length darts.now) },
    ghost some: { 0 < all },
    ghost few: { all ≤ 2 ^ 83 },
}

/// The path of these darts. Where they all have the share 0, they have equal ones.
pub(crate) fn path_of<'a>(arc: &ArcDarts<'a>, shares: &'a DartShares) -> Path<'a>
    ensures darts { result.darts.now ≡ arc.now.all.now }
    ensures shares { result.shares.now ≡ shares.now }
    ensures alike { result.alike
        ≡ (count_below (share_by arc.now.all.now shares.now false) (length arc.now.all.now) == 0) }
{
    let darts = arc.all;
    let mut all = 0u128;
    for dart in darts {
        all += u128::from(share_of(shares, *dart));
    }
    if all == 0 {
        let all = darts.len() as u128;
        return Path {
            darts,
            shares,
            alike: true,
            all,
        };
    }
    Path {
        darts,
        shares,
        alike: false,
        all,
    }
}

/// The share of a dart.
pub(crate) fn share_of(shares: &DartShares, dart: u32) -> u64
    ensures value { result ≡ share_on shares.now dart }
    ensures small { result < 2 ^ 62 }
{
    match shares.shares.get(dart as usize) {
        Some(share) => *share,
        None => EDGE_SHARE,
    }
}
