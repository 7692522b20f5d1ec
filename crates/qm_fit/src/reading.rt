//! What a head line of a fit asks for.

ghost use Rattle.std.specs.Prelude.{◌≡◌, ◌↔◌, ◌++◌, codes, IsTrue, MatchOption};
ghost use Rattle.def_fit.specs.Aims.{IsFit};
ghost use Rattle.def_fit.specs.FitWords.{aim_text, fit_head, IsAimWord};
ghost use Rattle.def_fit.specs.declared.fit.Fit.{Fit as AnyFit};
ghost use Rattle.def_text.specs.Types.{Word};
ghost use Rattle.qm_fit.specs.Cuts.{IsFitCut};

use crate::edge::is_micro_text;
use crate::words::{FitWords, read_fit};
use def_fit::{Aim, Fit};
use qm_certtext::cut_word;

/// The fit whose head line this is. Linear.
#[tactic(auto, using(crate::proofs::Heads::head_of))]
pub fn read_fit_head(line: &[u8]) -> Option<Fit>
    ensures { MatchOption result ((fit : AnyFit) → IsFit fit → ¬ (line.now ≡ fit_head fit))
        (λ fit. (line.now ≡ fit_head fit) × IsFit fit) }
{
    let Some(words) = cut_head(line) else {
        return None;
    };
    let Some(fit) = read_fit(&words) else {
        return None;
    };
    if is_aim_text(words.aim, &fit.aim) {
        Some(fit)
    } else {
        None
    }
}

/// Whether a word that asks for an aim is the one that is written for it.
fn is_aim_text(word: &[u8], aim: &Aim) -> bool
    requires { IsAimWord word.now aim.now }
    ensures { IsTrue result ↔ (word.now ≡ aim_text aim.now) }
{
    match aim {
        Aim::Edge { edge } => is_micro_text(&word[b"edge:".len()..], *edge),
        _ => true,
    }
}

/// The six words of a head line.
fn cut_head(line: &[u8]) -> Option<FitWords>
    ensures { MatchOption result
        ((keep patches aim floor weight spacing : Word) → ¬ IsFitCut line.now keep patches aim floor weight spacing)
        (λ words. IsFitCut line.now words.keep.now words.patches.now words.aim.now words.floor.now words.weight.now
        words.spacing.now) }
{
    let Some(rest) = line.strip_prefix(b"#quadq 1 fit keep ") else {
        return None;
    };
    let Some((keep, rest)) = cut_word(rest, b" patches ") else {
        return None;
    };
    let Some((patches, rest)) = cut_word(rest, b" aim ") else {
        return None;
    };
    let Some((aim, rest)) = cut_word(rest, b" floor ") else {
        return None;
    };
    let Some((floor, rest)) = cut_word(rest, b" weight ") else {
        return None;
    };
    let Some((weight, spacing)) = cut_word(rest, b" spacing ") else {
        return None;
    };
    Some(FitWords {
        keep,
        patches,
        aim,
        floor,
        weight,
        spacing,
    })
}
