//! Shares of old edges.

use std::marker::Model;

/// A share for each dart of a mesh by which new points are spaced. Each is below `MAX_SHARE`; a dart behind the end has
/// `EDGE_SHARE`. Contracts see the list.
#[derive(Debug, Drop)]
pub struct DartShares {
    pub shares: Vec<u64>,
}

impl Model for DartShares {
    ghost use Rattle.std.specs.Prelude.{ℕ, ◌<◌, All, List};
    ghost use Rattle.def_remesh.specs.declared.limits.TheConstants.{MAX_SHARE};

    ghost Value = { List ℕ };

    ghost view = { λ s. s.shares.items };

    ghost invariant = { λ s. All (λ share. share < MAX_SHARE) s.shares.items };
}
