//! The words of a line that has no comment.

ghost use Rattle.std.specs.Prelude.{◌≡◌, ◌<◌, ◌≤◌, ◌==◌, ◌∷◌, [], false, if◌then◌else◌, length, slice_index};
ghost use Rattle.std.specs.List.{position_or_len};
ghost use Rattle.def_text.specs.Words.{is_blank, words};

use def_text::{SPACE, TAB};

/// The first word of a line, and what follows it. The word is empty where there is none.
#[tactic(auto, using(crate::proofs::Pieces::first_word))]
pub(crate) fn first_word(text: &[u8]) -> (&[u8], &[u8])
    ensures { words text.now ≡ (if length result.0.now == 0 then [] else result.0.now ∷ words result.1.now) }
{
    let rest = skip_blanks(text);
    rest.split_at(word_end(rest))
}

/// Where the first word ends, which begins the line.
#[tactic(auto, using(std::proofs::lemmas::List::Sums::position_or_len_is))]
fn word_end(text: &[u8]) -> usize
    ensures exact { result ≡ position_or_len is_blank text.now }
    ensures within { result ≤ length text.now }
{
    for (i, byte) in text.iter().enumerate() {
        if is_blank(*byte) {
            return i;
        }
    }
    text.len()
}

/// Whether a byte is a blank.
fn is_blank(byte: u8) -> bool
    ensures { result ≡ is_blank byte }
{
    byte == SPACE || byte == TAB
}

/// A line without the blanks in front.
fn skip_blanks(text: &[u8]) -> &[u8]
    ensures same { words result.now ≡ words text.now }
    ensures at_word { 0 < length result.now → is_blank (slice_index result.now 0) ≡ false }
{
    let mut rest = text;
    while let [b' ' | b'\t', after @ ..] = rest {
        rest = after;
    }
    rest
}
