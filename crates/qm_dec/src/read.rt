//! A decimal's word to its number of millionths.
ghost use Rattle.std.specs.Prelude.{◌≡◌, ◌≤◌, ◌<◌, ◌+◌, ◌^◌, ◌++◌, neg_ℤ, if◌then◌else◌, pos, ◌+ℤ◌, ◌-ℤ◌, min};
ghost use Rattle.std.specs.Prelude.{IsTrue, length, IfOk, IfErr};
ghost use Rattle.def_text.specs.Decimal.{is_exponent, power, scaled, IsDecFail, IsValue};
ghost use Rattle.def_text.specs.Digits.{is_negative, is_number, number_written};
ghost use Rattle.qm_dec.specs.Sizes.{clamped};

use crate::parts::{are_number, is_exponent, split_exponent, split_point};
use crate::plain::plain_size;
use crate::size::{FAR, number_after, size_of};
use def_text::{DecFail, MAX_DECIMAL, Micro};
use qm_scan::{behind_first, is_negative, unsigned};

/// The value of the decimal, rounded to millionths, half away from zero.
pub fn read_micro(word: &[u8]) -> Result<Micro, DecFail>
    ensures value { IfOk result (IsValue word.now) }
    ensures refusal { IfErr result (IsDecFail word.now) }
{
    if word.len() > MAX_DECIMAL {
        return Err(DecFail::Syntax);
    }
    if let Some(size) = plain_size(word) {
        return Ok(signed(word, size));
    }
    let (mantissa, exponent) = split_exponent(unsigned(word));
    let (whole, fraction) = split_point(mantissa);
    if !are_number(whole, fraction) || !is_exponent(exponent) {
        return Err(DecFail::Syntax);
    }
    let size = size_in_millionths(whole, fraction, exponent);
    if size >= FAR {
        return Err(DecFail::Range);
    }
    Ok(signed(word, size))
}

/// The size with the sign of its word.
fn signed(word: &[u8], size: u64) -> Micro
    requires { size < 10 ^ 15 }
    ensures { result ≡ (if is_negative word.now then neg_ℤ (pos size) else pos size) }
{
    let n = size as i64;
    Micro {
        n: if is_negative(word) { -n } else { n },
    }
}

#[tactic(auto, using(crate::proofs::Digits::exponent_is, crate::proofs::Digits::some_from))]
fn size_in_millionths(whole: &[u8], fraction: &[u8], exponent: &[u8]) -> u64
    requires number { IsTrue (is_number (whole.now ++ fraction.now)) }
    requires exponent { IsTrue (is_exponent exponent.now) }
    requires short { length whole.now + length fraction.now + length exponent.now ≤ 64 }
    ensures { result ≡ clamped (scaled (number_written (whole.now ++ fraction.now))
        ((power exponent.now +ℤ pos 6) -ℤ pos (length fraction.now))) }
{
    let digits = fraction.len() as u32;
    if exponent.is_empty() {
        return size_of(whole, fraction, 6, digits);
    }
    let rest = behind_first(exponent);
    let power = small_power(unsigned(rest));
    if is_negative(rest) {
        size_of(whole, fraction, 6, digits + power)
    } else {
        size_of(whole, fraction, 6 + power, digits)
    }
}

/// The power, or 1000 where it is greater: no decimal that is not 0 is in range with it.
fn small_power(digits: &[u8]) -> u32
    requires { IsTrue (is_number digits.now) }
    ensures { result ≡ min (number_written digits.now) 1000 }
{
    number_after(0, digits).min(1000) as u32
}
