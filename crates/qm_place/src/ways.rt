//! Parts of the way between two numbers, and means of four.

ghost use Rattle.std.specs.Prelude.{◌≡◌, ◌<◌, ◌≤◌, ◌^◌, ◌+◌, ◌*◌, pos, ◌+ℤ◌, ◌*ℤ◌, unsigned_abs};
ghost use Rattle.std.specs.Int.{int_div_euclid};
ghost use Rattle.def_remesh.specs.Placings.{coordinate_in};
ghost use Rattle.def_written.specs.Places.{blend, on_the_way, ONE};

use def_text::Micro;

/// One old edge, as a parameter.
pub const EDGE: u64 = 1 << 32;

/// So many of the equal parts of the way from p to q, rounded, halves up.
pub(crate) fn on_the_way(p: Micro, q: Micro, some: u64, parts: u64) -> Micro
    requires { (some < parts) × (parts ≤ ONE) }
    ensures { result ≡ on_the_way p q some parts }
{
    let part = part_of(q.n - p.n, some, parts);
    Micro { n: p.n + part }
}

/// So many of the equal parts of a way, rounded, halves up.
fn part_of(way: i64, some: u64, parts: u64) -> i64
    requires some { (some < parts) × (parts ≤ ONE) }
    requires short { unsigned_abs way < 2 ^ 52 }
    ensures value { result ≡ int_div_euclid ((pos (2 * some) *ℤ way) +ℤ pos parts) (pos (2 * parts)) }
    ensures short { unsigned_abs result ≤ 2 ^ 52 }
{
    let twice = weigh(some, 2, way);
    let part = (twice + i128::from(parts)).div_euclid(i128::from(2 * parts));
    part as i64
}

/// The mean at (s, t) of the corners of a cell, counter-clockwise from the south-west, rounded, halves up.
pub(crate) fn blend(s: u64, t: u64, corners: [Micro; 4]) -> Micro
    requires { (s ≤ ONE) × (t ≤ ONE) }
    ensures { result ≡ blend s t (coordinate_in corners 0) (coordinate_in corners 1) (coordinate_in corners 3)
        (coordinate_in corners 2) }
{
    let [p00, p10, p11, p01] = corners;
    let south = weigh(EDGE - s, EDGE - t, p00.n) + weigh(s, EDGE - t, p10.n);
    let north = weigh(EDGE - s, t, p01.n) + weigh(s, t, p11.n);
    let mean = (south + north + (1 << 63)).div_euclid(1 << 64);
    Micro { n: mean as i64 }
}

/// A number with the weight a * b.
fn weigh(a: u64, b: u64, n: i64) -> i128
    requires weights { (a ≤ ONE) × (b ≤ ONE) }
    requires short { unsigned_abs n < 2 ^ 52 }
    ensures value { result ≡ pos (a * b) *ℤ n }
    ensures short { unsigned_abs result ≤ 2 ^ 116 }
{
    let weight = u128::from(a) * u128::from(b);
    weight as i128 * i128::from(n)
}
