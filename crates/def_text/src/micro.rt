//! Whole numbers of millionths.

use std::marker::Model;

/// A number of millionths, at most 999,999,999,999,999 in absolute value. Contracts see the number.
#[derive(Clone, Copy, Debug, PartialEq, Eq)]
pub struct Micro {
    pub n: i64,
}

impl Model for Micro {
    ghost use Rattle.std.specs.Prelude.{ℤ, ◌≤◌, unsigned_abs};

    ghost Value = { ℤ };

    ghost view = { λ m. m.n };

    ghost invariant = { λ m. unsigned_abs m.n ≤ 999_999_999_999_999 };

    ghost inverse = { λ z. record { n = z } };
}
