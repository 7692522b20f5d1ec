//! The words of a line.

ghost use Rattle.std.specs.Prelude.{◌≡◌, ◌<◌, ◌≤◌, false, length, slice_index};
ghost use Rattle.std.specs.List.{position_or_len};
ghost use Rattle.def_text.specs.Words.{is_blank, words};
ghost use Rattle.qm_obj.specs.Lines.{is_end, uncommented, with_word};

/// The first word of a line and what follows it. The word is empty where there is none before the comment.
#[tactic(auto, using(crate::proofs::WordLemmas::first_word))]
pub(crate) fn next_word(text: &[u8]) -> (&[u8], &[u8])
    ensures first { words (uncommented text.now) ≡ with_word result.0.now (words (uncommented result.1.now)) }
    ensures rest { length result.1.now ≤ length text.now }
{
    let rest = skip_blanks(text);
    rest.split_at(word_end(rest))
}

#[tactic(auto, using(std::proofs::lemmas::List::Sums::position_or_len_is))]
fn word_end(text: &[u8]) -> usize
    ensures exact { result ≡ position_or_len is_end text.now }
    ensures within { result ≤ length text.now }
{
    for (i, byte) in text.iter().enumerate() {
        if ends(*byte) {
            return i;
        }
    }
    text.len()
}

fn ends(byte: u8) -> bool
    ensures { result ≡ is_end byte }
{
    byte <= b'#' && (byte == b' ' || byte == b'\t' || byte == b'#')
}

fn skip_blanks(text: &[u8]) -> &[u8]
    ensures same { words (uncommented result.now) ≡ words (uncommented text.now) }
    ensures rest { length result.now ≤ length text.now }
    ensures at_word { 0 < length result.now → is_blank (slice_index result.now 0) ≡ false }
{
    let mut rest = text;
    while let [b' ' | b'\t', after @ ..] = rest {
        rest = after;
    }
    rest
}
