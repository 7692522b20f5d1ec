//! Whole square roots.

ghost use Rattle.std.specs.Prelude.{◌≡◌, ◌↔◌, true, IfSome};
ghost use Rattle.def_metric.specs.Roots.{root_of, IsRoot};

use std::num::{nearest_u64_to_f64, saturating_f64_to_u32};

/// The greatest `r` with `r * r <= n`. Takes no memory. If n has at most 64 bits, its root in floating point is tried
/// first, in a few instructions. Else, and where that is another whole number, it takes at most 64 steps.
pub fn root(n: u128) -> u64
    ensures greatest { IsRoot n result }
    ensures value { result ≡ root_of n }
{
    match near_root(n) {
        Some(root) => root,
        None => n.isqrt() as u64,
    }
}

/// The root in floating point, where it is the whole root.
fn near_root(n: u128) -> Option<u64>
    ensures { IfSome result (IsRoot n) }
{
    let short = u64::try_from(n).ok()?;
    let near = saturating_f64_to_u32(nearest_u64_to_f64(short).sqrt());
    if is_root(n, near) {
        Some(u64::from(near))
    } else {
        None
    }
}

/// Whether a number, wherever it is from, is the root of n.
fn is_root(n: u128, r: u32) -> bool
    ensures { result ≡ true ↔ IsRoot n r }
{
    let r = u128::from(r);
    r * r <= n && n < (r + 1) * (r + 1)
}
