//! The head line of a fit.

ghost use Rattle.std.specs.Prelude.{◌≡◌, ◌≤◌, ◌++◌, ◌∷◌, [], codes, length, IfOk, OnOk};
ghost use Rattle.def_certtext.specs.Settings.{floor_text, weight_text};
ghost use Rattle.def_fit.specs.FitWords.{aim_text, fit_head, keep_word, patches_word, spacing_word};

use crate::Memory;
use def_fit::{Aim, Fit, Keep, Patches, Spacing};
use def_flow::Settings;
use def_io::LINE_FEED;
use def_text::SLASH;
use qm_certtext::head_text;
use qm_dec::write_micro;
use qm_print::push_number;
use std::alloc::Global;

/// The head line of a fit, and its line feed.
pub fn fit_head(alloc: Global, fit: &Fit) -> Result<Vec<u8>, Memory>
    ensures { IfOk result (λ text. text.items ≡ fit_head fit.now ++ LINE_FEED ∷ []) }
{
    let mut text = Vec::new(alloc);
    text.extend_from_slice(b"#quadq 1 fit keep ")?;
    text.extend_from_slice(keep_word(fit.keep).as_bytes())?;
    text.extend_from_slice(b" patches ")?;
    text.extend_from_slice(patches_word(fit.patches).as_bytes())?;
    text.extend_from_slice(b" aim ")?;
    push_aim(&mut text, &fit.aim)?;
    push_least(alloc, &mut text, fit)?;
    push_spacing(&mut text, fit.spacing)?;
    text.push(LINE_FEED)?;
    Ok(text)
}

/// The word of the lines that are kept: at most 5 bytes.
pub fn keep_word(keep: Keep) -> &'static str
    ensures word { result.now ≡ keep_word keep }
    ensures short { length result.now ≤ 5 }
{
    match keep {
        Keep::Nothing => "none",
        Keep::Lines => "lines",
    }
}

/// The word of how the patches come about: at most 10 bytes.
pub fn patches_word(patches: Patches) -> &'static str
    ensures word { result.now ≡ patches_word patches }
    ensures short { length result.now ≤ 10 }
{
    match patches {
        Patches::Traced => "traced",
        Patches::Merged => "merged",
        Patches::Conforming => "conforming",
    }
}

/// The word of how new points are spaced.
fn spacing_word(spacing: Spacing) -> &'static str
    ensures { result.now ≡ spacing_word spacing }
{
    match spacing {
        Spacing::Even => "even",
        Spacing::Wished => "wished",
    }
}

/// Puts how new points are spaced at the end of a text.
fn push_spacing(text: &mut Vec<u8>, spacing: Spacing) -> Result<(), Memory>
    ensures { OnOk result (text.new.items ≡ text.old.items ++ codes " spacing " ++ spacing_word spacing) }
{
    text.extend_from_slice(b" spacing ")?;
    text.extend_from_slice(spacing_word(spacing).as_bytes())
}

/// Puts an aim at the end of a text.
fn push_aim(text: &mut Vec<u8>, aim: &Aim) -> Result<(), Memory>
    ensures { OnOk result (text.new.items ≡ text.old.items ++ aim_text aim.now) }
{
    match aim {
        Aim::Scale { p, q } => {
            text.extend_from_slice(b"scale:")?;
            push_number(text, u64::from(*p))?;
            text.push(SLASH)?;
            push_number(text, u64::from(*q))
        }
        Aim::Edge { edge } => {
            let mut digits = [0u8; 24];
            let end = write_micro(&mut digits, *edge);
            text.extend_from_slice(b"edge:")?;
            text.extend_from_slice(&digits[..end])
        }
        Aim::Wishes => text.extend_from_slice(b"lines"),
    }
}

/// Puts the least length of an arc and the weights at the end of a text, as they stand in the head line of a remesh.
#[tactic(auto, using(crate::proofs::Heads::least_cut))]
fn push_least(alloc: Global, text: &mut Vec<u8>, fit: &Fit) -> Result<(), Memory>
    ensures { OnOk result (text.new.items ≡ text.old.items
        ++ codes " floor " ++ floor_text fit.now.floor fit.now.auto ++ codes " weight " ++ weight_text fit.now.weight) }
{
    let settings = Settings {
        p: 1,
        q: 1,
        floor: fit.floor,
        weight: fit.weight,
    };
    let head = head_text(alloc, &settings, fit.auto)?;
    text.extend_from_slice(&head[b"#quadq 1 remesh scale 1/1".len()..head.len() - 1])?;
    Ok(())
}
