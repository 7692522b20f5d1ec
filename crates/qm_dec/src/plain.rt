//! Decimals of few digits without an exponent, which nearly all are: read in one pass.

ghost use Rattle.std.specs.Prelude.{◌≡◌, ◌≤◌, ◌<◌, ◌-◌, ◌*◌, ◌^◌, true, IfSome, length, map, take};
ghost use Rattle.std.specs.Char.{is_ascii_digit};
ghost use Rattle.std.specs.Int.Digits.{number_from_digits_after};
ghost use Rattle.std.specs.List.{list_all};
ghost use Rattle.qm_dec.specs.Sizes.{IsSize};

use def_text::POINT;
use qm_scan::{behind_first, unsigned};

/// The millionths, without the sign, of at most nine digits and at most six behind the point; `None` leaves a word to
/// the reader of all forms.
pub(crate) fn plain_size(word: &[u8]) -> Option<u64>
    requires { length word.now ≤ 64 }
    ensures { IfSome result (IsSize word.now) }
{
    let body = unsigned(word);
    let (whole, count) = add_digits(0, &body[..body.len().min(9)]);
    if count == 0 {
        return None;
    }
    let (_, rest) = body.split_at(count);
    if rest.is_empty() {
        return Some(whole * 1_000_000);
    }
    if rest[0] != POINT {
        return None;
    }
    with_fraction(whole, behind_first(rest))
}

fn with_fraction(whole: u64, fraction: &[u8]) -> Option<u64>
    requires { whole < 10 ^ 9 }
    ensures { IfSome result (λ n. (list_all is_ascii_digit fraction.now ≡ true) × (length fraction.now ≤ 6)
        × (n ≡ number_from_digits_after 10 whole (map (λ digit. digit - 48) fraction.now)
        * 10 ^ (6 - length fraction.now))) }
{
    if fraction.len() > 6 {
        return None;
    }
    let (n, count) = add_digits(whole, fraction);
    if count < fraction.len() {
        return None;
    }
    Some(n * 10u64.pow((6 - fraction.len()) as u32))
}

/// The number that the first digits of a text make of one, and how many they are.
#[tactic(auto, using(crate::proofs::FewDigits::after_room))]
fn add_digits(value: u64, text: &[u8]) -> (u64, usize)
    requires small { value < 10 ^ 9 }
    requires short { length text.now ≤ 9 }
    ensures within { result.1 ≤ length text.now }
    ensures digits { list_all is_ascii_digit (take result.1 text.now) ≡ true }
    ensures exact { result.0 ≡ number_from_digits_after 10 value (map (λ digit. digit - 48) (take result.1 text.now)) }
{
    let mut value = value;
    for (i, byte) in text.iter().enumerate() {
        if !byte.is_ascii_digit() {
            return (value, i);
        }
        value = value * 10 + u64::from(*byte - b'0');
    }
    (value, text.len())
}
