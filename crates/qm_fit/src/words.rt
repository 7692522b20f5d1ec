//! The words of a fit.

ghost use Rattle.std.specs.Prelude.{◌≡◌, ◌++◌, codes, MatchOption};
ghost use Rattle.def_fit.specs.Aims.{IsAim};
ghost use Rattle.def_fit.specs.FitWords.{keep_word, patches_word, spacing_word, AreFitWords, IsAimWord};
ghost use Rattle.def_fit.specs.declared.fit.Aim.{Aim as AnyAim};
ghost use Rattle.def_fit.specs.declared.fit.Fit.{Fit as AnyFit};
ghost use Rattle.def_fit.specs.declared.fit.Spacing.{Spacing as AnySpacing};
ghost use Rattle.def_patches.specs.declared.Keep.{Keep as AnyKeep};
ghost use Rattle.def_patches.specs.declared.Patches.{Patches as AnyPatches};

use crate::edge::read_edge;
use def_fit::{Aim, Fit, Keep, Patches, Spacing};
use qm_certtext::read_settings;
use qm_dec::read_ratio;

/// The words of the six options of a fit.
#[derive(Clone, Copy)]
pub struct FitWords<'a> {
    pub keep: &'a [u8],
    pub patches: &'a [u8],
    pub aim: &'a [u8],
    pub floor: &'a [u8],
    pub weight: &'a [u8],
    pub spacing: &'a [u8],
}

/// The fit that six words ask for.
pub fn read_fit(words: &FitWords) -> Option<Fit>
    ensures { MatchOption result
        ((fit : AnyFit) → ¬ AreFitWords words.now.keep.now words.now.patches.now words.now.aim.now words.now.floor.now
        words.now.weight.now words.now.spacing.now fit)
        (AreFitWords words.now.keep.now words.now.patches.now words.now.aim.now words.now.floor.now
        words.now.weight.now words.now.spacing.now) }
{
    let Some(keep) = read_keep(words.keep) else {
        return None;
    };
    let Some(patches) = read_patches(words.patches) else {
        return None;
    };
    let Some(aim) = read_aim(words.aim) else {
        return None;
    };
    let Some(least) = read_settings(b"1/1", words.floor, words.weight) else {
        return None;
    };
    let Some(spacing) = read_spacing(words.spacing) else {
        return None;
    };
    Some(Fit {
        keep,
        patches,
        aim,
        floor: least.settings.floor,
        auto: least.auto,
        weight: least.settings.weight,
        spacing,
    })
}

/// Which lines are kept.
pub fn read_keep(word: &[u8]) -> Option<Keep>
    ensures { MatchOption result ((keep : AnyKeep) → ¬ (word.now ≡ keep_word keep))
        (λ keep. word.now ≡ keep_word keep) }
{
    match word {
        b"none" => Some(Keep::Nothing),
        b"lines" => Some(Keep::Lines),
        _ => None,
    }
}

/// How the patches come about.
pub fn read_patches(word: &[u8]) -> Option<Patches>
    ensures { MatchOption result ((patches : AnyPatches) → ¬ (word.now ≡ patches_word patches))
        (λ patches. word.now ≡ patches_word patches) }
{
    match word {
        b"traced" => Some(Patches::Traced),
        b"merged" => Some(Patches::Merged),
        b"conforming" => Some(Patches::Conforming),
        _ => None,
    }
}

/// How new points are spaced.
fn read_spacing(word: &[u8]) -> Option<Spacing>
    ensures { MatchOption result ((spacing : AnySpacing) → ¬ (word.now ≡ spacing_word spacing))
        (λ spacing. word.now ≡ spacing_word spacing) }
{
    match word {
        b"even" => Some(Spacing::Even),
        b"wished" => Some(Spacing::Wished),
        _ => None,
    }
}

/// What is aimed at.
fn read_aim(word: &[u8]) -> Option<Aim>
    ensures { MatchOption result ((aim : AnyAim) → IsAim aim → ¬ IsAimWord word.now aim)
        (λ aim. IsAimWord word.now aim × IsAim aim) }
{
    if let Some(scale) = word.strip_prefix(b"scale:") {
        return read_scale(scale);
    }
    if let Some(length) = word.strip_prefix(b"edge:") {
        return read_length(length);
    }
    match word {
        b"lines" => Some(Aim::Wishes),
        _ => None,
    }
}

/// The aim with this scale.
fn read_scale(scale: &[u8]) -> Option<Aim>
    ensures { MatchOption result ((aim : AnyAim) → IsAim aim → ¬ IsAimWord (codes "scale:" ++ scale.now) aim)
        (λ aim. IsAimWord (codes "scale:" ++ scale.now) aim × IsAim aim) }
{
    let Some((p, q)) = read_ratio(scale) else {
        return None;
    };
    Some(Aim::Scale { p, q })
}

/// The aim with this length.
fn read_length(length: &[u8]) -> Option<Aim>
    ensures { MatchOption result ((aim : AnyAim) → IsAim aim → ¬ IsAimWord (codes "edge:" ++ length.now) aim)
        (λ aim. IsAimWord (codes "edge:" ++ length.now) aim × IsAim aim) }
{
    let Some(edge) = read_edge(length) else {
        return None;
    };
    Some(Aim::Edge { edge })
}
