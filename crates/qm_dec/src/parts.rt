//! The parts of a decimal: digits before and behind the point, exponent.

ghost use Rattle.std.specs.Prelude.{◌≡◌, ◌+◌, ◌≤◌, ◌++◌, drop, length};
ghost use Rattle.std.specs.List.{after_first, before_first, position_or_len};
ghost use Rattle.def_text.specs.Decimal.{is_exponent, is_mark, is_point};
ghost use Rattle.def_text.specs.Digits.{is_number};

use def_text::{LARGE_E, POINT, SMALL_E};
use qm_scan::{are_digits, behind_first, find_byte, is_number, unsigned};

/// What stands before the exponent, and the exponent with its mark.
pub(crate) fn split_exponent(body: &[u8]) -> (&[u8], &[u8])
    ensures before { result.0.now ≡ before_first is_mark body.now }
    ensures from { result.1.now ≡ drop (position_or_len is_mark body.now) body.now }
{
    body.split_at(mark_place(body))
}

#[tactic(auto, using(std::proofs::lemmas::List::Sums::position_or_len_is))]
fn mark_place(body: &[u8]) -> usize
    ensures exact { result ≡ position_or_len is_mark body.now }
    ensures within { result ≤ length body.now }
{
    for (i, byte) in body.iter().enumerate() {
        if is_mark(*byte) {
            return i;
        }
    }
    body.len()
}

fn is_mark(byte: u8) -> bool
    ensures { result ≡ is_mark byte }
{
    byte == SMALL_E || byte == LARGE_E
}

/// The digits before the point and those behind it.
pub(crate) fn split_point(mantissa: &[u8]) -> (&[u8], &[u8])
    ensures before { result.0.now ≡ before_first is_point mantissa.now }
    ensures behind { result.1.now ≡ after_first is_point mantissa.now }
{
    let (whole, rest) = mantissa.split_at(find_byte(mantissa, POINT));
    (whole, behind_first(rest))
}

/// Whether two runs of digits together are a number.
#[tactic(auto, using(std::proofs::lemmas::Bool::and_left, crate::proofs::Digits::number_both))]
pub(crate) fn are_number(whole: &[u8], fraction: &[u8]) -> bool
    requires { length whole.now + length fraction.now ≤ 64 }
    ensures { result ≡ is_number (whole.now ++ fraction.now) }
{
    if whole.len() + fraction.len() == 0 {
        return false;
    }
    if !are_digits(whole) {
        return false;
    }
    are_digits(fraction)
}

pub(crate) fn is_exponent(exponent: &[u8]) -> bool
    ensures { result ≡ is_exponent exponent.now }
{
    match exponent {
        [] => true,
        [_, rest @ ..] => is_number(unsigned(rest)),
    }
}
