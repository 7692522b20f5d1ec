//! Head lines.

ghost use Rattle.std.specs.Prelude.{◌≡◌, ◌==◌, ◌++◌, ◌∷◌, [], not, Bool, true, codes, slice_index, IfOk, OnOk};
ghost use Rattle.std.specs.Prelude.{MatchOption};
ghost use Rattle.std.specs.List.{list_all};
ghost use Rattle.def_certtext.specs.HeadLine.{head_line};
ghost use Rattle.def_certtext.specs.Reading.{IsHead};
ghost use Rattle.def_certtext.specs.Settings.{floor_text, scale_text, weight_text, AreInRange};
ghost use Rattle.def_flow.specs.declared.net.Settings.{Settings as AnySettings};
ghost use Rattle.def_text.specs.Types.{Word};
ghost use Rattle.qm_certtext.specs.Cuts.{IsCut};

use crate::Memory;
use crate::settings::read_settings;
use def_certtext::Asked;
use def_flow::{Settings, Weight};
use def_io::LINE_FEED;
use def_text::{SLASH, SPACE};
use qm_print::push_number;
use qm_scan::find_byte;
use std::alloc::Global;

/// The head line of a remesh with these settings, and its line feed.
pub fn head_text(alloc: Global, set: &Settings, auto: bool) -> Result<Vec<u8>, Memory>
    ensures { IfOk result (λ text. text.items ≡ head_line set.now auto ++ LINE_FEED ∷ []) }
{
    let mut text = Vec::new(alloc);
    text.extend_from_slice(b"#quadq 1 remesh scale ")?;
    push_number(&mut text, u64::from(set.p))?;
    text.push(SLASH)?;
    push_number(&mut text, u64::from(set.q))?;
    text.extend_from_slice(b" floor ")?;
    push_floor(&mut text, set.floor, auto)?;
    text.extend_from_slice(b" weight ")?;
    text.extend_from_slice(weight_name(set.weight))?;
    text.push(LINE_FEED)?;
    Ok(text)
}

fn push_floor(text: &mut Vec<u8>, floor: u32, auto: bool) -> Result<(), Memory>
    ensures { OnOk result (text.new.items ≡ text.old.items ++ floor_text floor auto) }
{
    if auto {
        text.extend_from_slice(b"auto")
    } else {
        push_number(text, u64::from(floor))
    }
}

fn weight_name(weight: Weight) -> &'static [u8]
    ensures { result.now ≡ weight_text weight }
{
    match weight {
        Weight::Plain => b"plain",
        Weight::Length => b"length",
    }
}

/// The settings that a head line asks for. Linear.
pub fn read_head(line: &[u8]) -> Option<Asked>
    ensures { MatchOption result
        ((settings : AnySettings) (auto : Bool) → ¬ IsHead line.now settings auto)
        (λ asked. IsHead line.now asked.settings asked.auto) }
{
    read_asked(line, b"#quadq 1 remesh scale ")
}

/// The settings whose words stand behind this prefix of a line, as they do in a head line. Linear.
pub fn read_asked(line: &[u8], prefix: &[u8]) -> Option<Asked>
    ensures { MatchOption result
        ((settings : AnySettings) (auto : Bool) → AreInRange settings auto
        → ¬ (line.now ≡ prefix.now ++ scale_text settings ++ codes " floor "
        ++ floor_text settings.floor auto ++ codes " weight " ++ weight_text settings.weight))
        (λ asked. AreInRange asked.settings asked.auto
        × (line.now ≡ prefix.now ++ scale_text asked.settings ++ codes " floor "
        ++ floor_text asked.settings.floor asked.auto ++ codes " weight " ++ weight_text asked.settings.weight)) }
{
    match cut_head(line, prefix) {
        Some(words) => read_settings(words.scale, words.floor, words.weight),
        None => None,
    }
}

/// The three words of settings in a head line.
#[derive(Clone, Copy)]
struct HeadWords<'a> {
    scale: &'a [u8],
    floor: &'a [u8],
    weight: &'a [u8],
}

fn cut_head<'a>(line: &'a [u8], prefix: &[u8]) -> Option<HeadWords<'a>>
    ensures { MatchOption result
        ((scale floor weight : Word) → ¬ IsCut prefix.now line.now scale floor weight)
        (λ words. IsCut prefix.now line.now words.scale.now words.floor.now words.weight.now) }
{
    let Some(rest) = line.strip_prefix(prefix) else {
        return None;
    };
    let Some((scale, rest)) = cut_word(rest, b" floor ") else {
        return None;
    };
    match cut_word(rest, b" weight ") {
        Some((floor, weight)) => Some(HeadWords {
            scale,
            floor,
            weight,
        }),
        None => None,
    }
}

/// The first word, and what stands behind the mark, which begins with a space and follows it. Linear.
pub fn cut_word<'a>(text: &'a [u8], mark: &[u8]) -> Option<(&'a [u8], &'a [u8])>
    requires { slice_index mark.now 0 ≡ SPACE }
    ensures { MatchOption result
        ((word rest : Word) → list_all (λ byte. not (byte == SPACE)) word ≡ true
        → ¬ (text.now ≡ word ++ (mark.now ++ rest)))
        (λ cut. (list_all (λ byte. not (byte == SPACE)) cut.0.now ≡ true)
        × (text.now ≡ cut.0.now ++ (mark.now ++ cut.1.now))) }
{
    let (word, behind) = text.split_at(find_byte(text, SPACE));
    match behind.strip_prefix(mark) {
        Some(rest) => Some((word, rest)),
        None => None,
    }
}
