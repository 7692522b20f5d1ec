//! What a line says that wishes: two vertices by their numbers, and a length.

ghost use Rattle.std.specs.Prelude.{◌≡◌, ◌-◌, ◌^◌, ◌∷◌, [], min, None, Some, MatchOption, if◌then◌else◌};
ghost use Rattle.def_fit.specs.WishLines.{is_counting, is_whole, wished_by};
ghost use Rattle.def_text.specs.Digits.{number_written};
ghost use Rattle.qm_marks.specs.Wishing.{pieces_of, IsSaid};

use def_text::{SPACE, ZERO};
use qm_scan::{find_byte, read_number};

/// Two vertices by their numbers in the file, and a wish, each as far as its type goes.
#[derive(Clone, Copy)]
pub(crate) struct Said {
    pub(crate) u: u64,
    pub(crate) v: u64,
    pub(crate) wish: u64,
}

/// What words say that are divided by one blank each.
#[tactic(auto, using(crate::proofs::Pieces::none_of, crate::proofs::Pieces::three_said))]
pub(crate) fn read_said(text: &[u8]) -> Option<Said>
    ensures { MatchOption result (wished_by (pieces_of text.now) ≡ None) (IsSaid (pieces_of text.now)) }
{
    let Some((u, behind)) = cut_blank(text) else {
        return None;
    };
    let Some((v, last)) = cut_blank(behind) else {
        return None;
    };
    if cut_blank(last).is_some() {
        return None;
    }
    let Some(u) = read_counting(u) else {
        return None;
    };
    let Some(v) = read_counting(v) else {
        return None;
    };
    match read_whole(last) {
        Some(wish) => Some(Said { u, v, wish }),
        None => None,
    }
}

/// What stands before the first blank, and behind it.
#[tactic(auto, using(crate::proofs::Pieces::one_piece, crate::proofs::Pieces::first_piece))]
fn cut_blank(text: &[u8]) -> Option<(&[u8], &[u8])>
    ensures { MatchOption result (pieces_of text.now ≡ text.now ∷ [])
        (λ cut. pieces_of text.now ≡ cut.0.now ∷ pieces_of cut.1.now) }
{
    let (front, behind) = text.split_at(find_byte(text, SPACE));
    match behind {
        [] => None,
        [_, rest @ ..] => Some((front, rest)),
    }
}

/// The number that a word writes, from 1 on and without a leading zero.
fn read_counting(word: &[u8]) -> Option<u64>
    ensures { result
        ≡ (if is_counting word.now then Some (min (number_written word.now) (2 ^ 64 - 1)) else None) }
{
    match word {
        [ZERO, ..] => None,
        _ => read_number(word),
    }
}

/// The same from 0 on.
fn read_whole(word: &[u8]) -> Option<u64>
    ensures { result
        ≡ (if is_whole word.now then Some (min (number_written word.now) (2 ^ 64 - 1)) else None) }
{
    match word {
        [ZERO] => Some(0),
        _ => read_counting(word),
    }
}
