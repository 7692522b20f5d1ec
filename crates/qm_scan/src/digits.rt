//! Digits and signs.

ghost use Rattle.std.specs.Prelude.{◌≡◌};
ghost use Rattle.std.specs.Char.{is_ascii_digit};
ghost use Rattle.std.specs.List.{list_all};
ghost use Rattle.def_text.specs.Digits.{is_negative, is_number, unsigned};

/// Whether the word has digits alone, if any.
pub fn are_digits(word: &[u8]) -> bool
    ensures { result ≡ list_all is_ascii_digit word.now }
{
    word.iter().all(|byte| byte.is_ascii_digit())
}

/// Whether the word is one or more digits.
#[tactic(auto, using(crate::proofs::Numbers::number_all))]
pub fn is_number(word: &[u8]) -> bool
    ensures { result ≡ is_number word.now }
{
    !word.is_empty() && are_digits(word)
}

/// Whether the word begins with a minus.
pub fn is_negative(word: &[u8]) -> bool
    ensures { result ≡ is_negative word.now }
{
    match word {
        [b'-', ..] => true,
        _ => false,
    }
}

/// The word without its sign, where it has one.
pub fn unsigned(word: &[u8]) -> &[u8]
    ensures { result.now ≡ unsigned word.now }
{
    match word {
        [b'+' | b'-', rest @ ..] => rest,
        _ => word,
    }
}
