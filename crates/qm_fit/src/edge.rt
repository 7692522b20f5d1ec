//! The length of an edge, as a word.

ghost use Rattle.std.specs.Prelude.{◌≡◌, ◌↔◌, ℤ, IfSome, IsTrue, None};
ghost use Rattle.def_fit.specs.FitWords.{IsEdgeLength};
ghost use Rattle.def_text.specs.Canonical.{micro_text};

use def_text::Micro;
use qm_dec::{read_micro, write_micro};

/// The millionths of a decimal, where there is at least one.
pub fn read_edge(word: &[u8]) -> Option<Micro>
    ensures value { IfSome result (IsEdgeLength word.now) }
    ensures none { result ≡ None → (edge : ℤ) → ¬ IsEdgeLength word.now edge }
{
    match read_micro(word) {
        Ok(edge) if edge.n > 0 => Some(edge),
        _ => None,
    }
}

/// Whether a word is the canonical text of a number.
pub fn is_micro_text(word: &[u8], number: Micro) -> bool
    ensures { IsTrue result ↔ (word.now ≡ micro_text number) }
{
    let mut digits = [0u8; 24];
    let end = write_micro(&mut digits, number);
    word == &digits[..end]
}
