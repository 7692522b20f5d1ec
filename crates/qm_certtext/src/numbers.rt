//! The numbers of certificate lines, read as they are written.

ghost use Rattle.std.specs.Prelude.{◌≡◌, ◌≤◌, ◌<◌, ◌+◌, ◌==◌, ◌&&◌, ◌++◌, ◌∷◌, ℕ, ℤ, true, decimal, length, nat_lt};
ghost use Rattle.std.specs.Prelude.{slice_index, unsigned_abs, MatchOption};
ghost use Rattle.std.specs.Fmt.{signed_decimal};
ghost use Rattle.def_certtext.specs.Reading.{is_small, may_tell};
ghost use Rattle.def_certtext.specs.declared.certs.Rise.{Rise as AnyRise};
ghost use Rattle.def_certtext.specs.declared.certs.Rising.TheVariants.{Rounds};

use def_certtext::Rise;
use def_flow::MAX_FLOOR;
use def_matching::NUMBER_LIMIT;
use def_text::{MINUS, SPACE, ZERO};
use qm_scan::{behind_first, find_byte, read_number};

/// The greatest `up`.
const GREATEST_UP: u64 = 4_294_967_295;

/// The greatest number of an arc, from 1.
const MOST_ARCS: u64 = 4_294_967_296;

/// A number of a vertex or a set, and its `up`.
#[derive(Clone, Copy)]
pub(crate) struct Numbered {
    pub(crate) number: i64,
    pub(crate) up: u32,
}

/// A number and its `up` behind one space.
pub(crate) fn read_numbered(text: &[u8]) -> Option<Numbered>
    ensures { MatchOption result
        ((number : ℤ) (up : ℕ) → is_small number up ≡ true → ¬ (text.now ≡ signed_decimal number ++ SPACE ∷ decimal up))
        (λ read. (is_small read.number read.up ≡ true)
        × (text.now ≡ signed_decimal read.number ++ SPACE ∷ decimal read.up)) }
{
    let (prefix, rest) = text.split_at(find_byte(text, SPACE));
    if rest.is_empty() {
        return None;
    }
    let Some(number) = read_signed(prefix) else {
        return None;
    };
    let Some(up) = read_count(behind_first(rest), GREATEST_UP) else {
        return None;
    };
    Some(Numbered {
        number,
        up: up as u32,
    })
}

/// An arc, which counts from 1, and its floor behind one space.
pub(crate) fn read_rise(text: &[u8]) -> Option<Rise>
    ensures { MatchOption result
        ((rise : AnyRise) → may_tell Rounds rise ≡ true
        → ¬ (text.now ≡ decimal (rise.arc + 1) ++ SPACE ∷ decimal rise.floor))
        (λ rise. (may_tell Rounds rise ≡ true)
        × (text.now ≡ decimal (rise.arc + 1) ++ SPACE ∷ decimal rise.floor)) }
{
    let (prefix, rest) = text.split_at(find_byte(text, SPACE));
    if rest.is_empty() {
        return None;
    }
    let Some(floor) = read_count(behind_first(rest), u64::from(MAX_FLOOR)) else {
        return None;
    };
    match read_count(prefix, MOST_ARCS) {
        Some(number) if number > 0 => Some(Rise {
            arc: (number - 1) as u32,
            floor: floor as u32,
        }),
        _ => None,
    }
}

/// A whole number of at most 18 digits, with a minus where it is below 0.
fn read_signed(word: &[u8]) -> Option<i64>
    ensures { MatchOption result
        ((z : ℤ) → unsigned_abs z < NUMBER_LIMIT → ¬ (word.now ≡ signed_decimal z))
        (λ z. (unsigned_abs z < NUMBER_LIMIT) × (word.now ≡ signed_decimal z)) }
{
    match word {
        [b'-', digits @ ..] => read_negative(digits),
        _ => match read_count(word, NUMBER_LIMIT - 1) {
            Some(n) => Some(n as i64),
            None => None,
        },
    }
}

/// The number below 0 that has these digits behind its minus.
fn read_negative(digits: &[u8]) -> Option<i64>
    ensures { MatchOption result
        ((z : ℤ) → unsigned_abs z < NUMBER_LIMIT → ¬ (MINUS ∷ digits.now ≡ signed_decimal z))
        (λ z. (unsigned_abs z < NUMBER_LIMIT) × (MINUS ∷ digits.now ≡ signed_decimal z)) }
{
    match read_count(digits, NUMBER_LIMIT - 1) {
        Some(n) if n > 0 => Some(-(n as i64)),
        _ => None,
    }
}

/// A whole number up to the greatest, without a leading zero.
#[tactic(auto, using(crate::proofs::Counts::count_read))]
pub(crate) fn read_count(word: &[u8], greatest: u64) -> Option<u64>
    requires { greatest < NUMBER_LIMIT }
    ensures { MatchOption result
        ((n : ℕ) → n ≤ greatest → ¬ (word.now ≡ decimal n))
        (λ n. (n ≤ greatest) × (word.now ≡ decimal n)) }
{
    if has_leading_zero(word) {
        return None;
    }
    match read_number(word) {
        Some(n) if n <= greatest => Some(n),
        _ => None,
    }
}

fn has_leading_zero(word: &[u8]) -> bool
    ensures { result ≡ (nat_lt 1 (length word.now) && (slice_index word.now 0 == ZERO)) }
{
    word.len() > 1 && word[0] == ZERO
}
