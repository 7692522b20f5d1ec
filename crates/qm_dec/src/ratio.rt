//! Ratios of two whole numbers.

ghost use Rattle.std.specs.Prelude.{◌≡◌, ◌≤◌, ℕ, ◌↔◌, IsTrue, MatchOption, decimal};
ghost use Rattle.def_text.specs.Ratio.{IsRatio};

use crate::size::number_after;
use def_text::{MAX_PART, SLASH};
use itoa::Buffer;
use qm_scan::{are_digits, behind_first, find_byte};

/// The two numbers of a word `P/Q`, each from 1 to 1000 and without leading zeros.
pub fn read_ratio(word: &[u8]) -> Option<(u32, u32)>
    ensures { MatchOption result ((p q : ℕ) → ¬ IsRatio word.now p q) (λ r. IsRatio word.now r.0 r.1) }
{
    let (above, rest) = word.split_at(find_byte(word, SLASH));
    if rest.is_empty() {
        return None;
    }
    let Some(p) = read_count(above, MAX_PART) else {
        return None;
    };
    let Some(q) = read_count(behind_first(rest), MAX_PART) else {
        return None;
    };
    Some((p, q))
}

/// A number from 1 to the greatest, which is at most 10,000, that is written as it would be printed.
pub fn read_count(word: &[u8], greatest: u32) -> Option<u32>
    requires { greatest ≤ 10000 }
    ensures { MatchOption result ((n : ℕ) → 1 ≤ n → n ≤ greatest → ¬ (word.now ≡ decimal n))
        (λ n. (word.now ≡ decimal n) × (1 ≤ n) × (n ≤ greatest)) }
{
    if !are_digits(word) {
        return None;
    }
    let n = number_after(0, word).min(10_001) as u32;
    if n == 0 || n > greatest {
        return None;
    }
    if is_written(word, n) { Some(n) } else { None }
}

fn is_written(word: &[u8], n: u32) -> bool
    ensures { IsTrue result ↔ (word.now ≡ decimal n) }
{
    let mut buffer = Buffer::new();
    word == buffer.format(n).as_bytes()
}
