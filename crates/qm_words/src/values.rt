//! The values of a line's options.

ghost use Rattle.std.specs.Prelude.{◌≡◌, ◌≤◌, ℕ, ℤ, Bool, [], ◌∷◌, false, map, string_bytes, IfOk, IfErr};
ghost use Rattle.def_fit.specs.declared.fit.Fit.{Fit as AnyFit};
ghost use Rattle.def_flow.specs.declared.net.Settings.{Settings as AnySettings};
ghost use Rattle.def_patches.specs.declared.Keep.{Keep as AnyKeep};
ghost use Rattle.def_patches.specs.declared.Patches.{Patches as AnyPatches};
ghost use Rattle.def_run.specs.CommandLines.{HasCount, HasCutOptions, HasEdge, HasFitOptions};
ghost use Rattle.def_run.specs.CommandLines.{HasGridsOptions, HasSettings};
ghost use Rattle.qm_words.specs.Parsing.{is_known};

use crate::options::read_options;
use def_certtext::Asked;
use def_fit::Fit;
use def_flow::{MAX_FLOOR, Settings};
use def_patches::{Keep, Patches};
use def_run::{MAX_MULTIPLE, WordsFail};
use def_text::Micro;
use qm_certtext::read_settings;
use qm_dec::read_count;
use qm_fit::{FitWords, read_edge, read_fit, read_keep, read_patches};
use std::alloc::Global;

/// The number of the one option of these words, from 1 to the greatest. The option has this name.
pub(crate) fn number_of(
    alloc: Global,
    name: &str,
    greatest: u32,
    words: &[String],
) -> Result<u32, WordsFail>
    requires named { is_known (name.now ∷ []) [] ≡ false }
    requires small { greatest ≤ 10000 }
    ensures reads { IfOk result (HasCount name.now greatest (map string_bytes words.now)) }
    ensures refuses { IfErr result (λ fail. fail ≡ WordsFail.Usage
        → (n : ℕ) → ¬ HasCount name.now greatest (map string_bytes words.now) n) }
{
    let names = [name];
    let matches = read_options(alloc, &names, words)?;
    let value = matches.get_str(name).unwrap();
    match read_count(value.as_bytes(), greatest) {
        Some(n) => Ok(n),
        None => Err(WordsFail::Usage),
    }
}

/// The settings that these words, the options of a remesh, ask for.
pub(crate) fn settings_of(alloc: Global, words: &[String]) -> Result<Asked, WordsFail>
    ensures reads { IfOk result (λ asked. HasSettings (map string_bytes words.now) asked.settings asked.auto) }
    ensures refuses { IfErr result (λ fail. fail ≡ WordsFail.Usage
        → (settings : AnySettings) (auto : Bool) → ¬ HasSettings (map string_bytes words.now) settings auto) }
{
    let names = ["scale", "floor", "weight"];
    let matches = read_options(alloc, &names, words)?;
    let scale = matches.get_str("scale").unwrap();
    let floor = matches.get_str("floor").unwrap();
    let weight = matches.get_str("weight").unwrap();
    match read_settings(scale.as_bytes(), floor.as_bytes(), weight.as_bytes()) {
        Some(asked) => Ok(asked),
        None => Err(WordsFail::Usage),
    }
}

/// The same of words whose floor is a number.
pub(crate) fn fixed_settings_of(alloc: Global, words: &[String]) -> Result<Settings, WordsFail>
    ensures reads { IfOk result (λ settings. HasSettings (map string_bytes words.now) settings false) }
    ensures refuses { IfErr result (λ fail. fail ≡ WordsFail.Usage
        → (settings : AnySettings) → ¬ HasSettings (map string_bytes words.now) settings false) }
{
    let asked = settings_of(alloc, words)?;
    if asked.auto {
        return Err(WordsFail::Usage);
    }
    Ok(asked.settings)
}

/// The length of an edge, and the least length of an arc.
#[derive(Clone, Copy)]
pub(crate) struct EdgeAndFloor {
    pub(crate) edge: Micro,
    pub(crate) floor: u32,
}

/// The length and the floor that these words, the options of `size`, ask for.
pub(crate) fn edge_of(alloc: Global, words: &[String]) -> Result<EdgeAndFloor, WordsFail>
    ensures reads { IfOk result (λ asked. HasEdge (map string_bytes words.now) asked.edge asked.floor) }
    ensures refuses { IfErr result (λ fail. fail ≡ WordsFail.Usage
        → (edge : ℤ) (floor : ℕ) → ¬ HasEdge (map string_bytes words.now) edge floor) }
{
    let names = ["edge", "floor"];
    let matches = read_options(alloc, &names, words)?;
    let edge = matches.get_str("edge").unwrap();
    let floor = matches.get_str("floor").unwrap();
    let Some(edge) = read_edge(edge.as_bytes()) else {
        return Err(WordsFail::Usage);
    };
    match read_count(floor.as_bytes(), MAX_FLOOR) {
        Some(floor) => Ok(EdgeAndFloor { edge, floor }),
        None => Err(WordsFail::Usage),
    }
}

/// The fit that these words, the options of `fit`, ask for.
pub(crate) fn fit_of(alloc: Global, words: &[String]) -> Result<Fit, WordsFail>
    ensures reads { IfOk result (HasFitOptions (map string_bytes words.now)) }
    ensures refuses { IfErr result (λ fail. fail ≡ WordsFail.Usage
        → (fit : AnyFit) → ¬ HasFitOptions (map string_bytes words.now) fit) }
{
    let names = ["keep", "patches", "aim", "floor", "weight", "spacing"];
    let matches = read_options(alloc, &names, words)?;
    let keep = matches.get_str("keep").unwrap();
    let patches = matches.get_str("patches").unwrap();
    let aim = matches.get_str("aim").unwrap();
    let floor = matches.get_str("floor").unwrap();
    let weight = matches.get_str("weight").unwrap();
    let spacing = matches.get_str("spacing").unwrap();
    let fit = read_fit(&FitWords {
        keep: keep.as_bytes(),
        patches: patches.as_bytes(),
        aim: aim.as_bytes(),
        floor: floor.as_bytes(),
        weight: weight.as_bytes(),
        spacing: spacing.as_bytes(),
    });
    match fit {
        Some(fit) => Ok(fit),
        None => Err(WordsFail::Usage),
    }
}

/// A cut that is chosen.
#[derive(Clone, Copy)]
pub(crate) struct Chosen {
    pub(crate) keep: Keep,
    pub(crate) patches: Patches,
}

/// The cut that these words, the options of `layout`, choose.
pub(crate) fn cut_of(alloc: Global, words: &[String]) -> Result<Chosen, WordsFail>
    ensures reads { IfOk result (λ chosen. HasCutOptions (map string_bytes words.now) chosen.keep chosen.patches) }
    ensures refuses { IfErr result (λ fail. fail ≡ WordsFail.Usage
        → (keep : AnyKeep) (patches : AnyPatches) → ¬ HasCutOptions (map string_bytes words.now) keep patches) }
{
    let names = ["keep", "patches"];
    let matches = read_options(alloc, &names, words)?;
    let keep = matches.get_str("keep").unwrap();
    let patches = matches.get_str("patches").unwrap();
    let Some(keep) = read_keep(keep.as_bytes()) else {
        return Err(WordsFail::Usage);
    };
    let Some(patches) = read_patches(patches.as_bytes()) else {
        return Err(WordsFail::Usage);
    };
    Ok(Chosen { keep, patches })
}

/// A cut that is chosen, and a multiple of its old lengths.
#[derive(Clone, Copy)]
pub(crate) struct ChosenGrids {
    pub(crate) keep: Keep,
    pub(crate) patches: Patches,
    pub(crate) by: u32,
}

/// The cut and the multiple that these words, the options of `grids`, choose.
pub(crate) fn grids_of(alloc: Global, words: &[String]) -> Result<ChosenGrids, WordsFail>
    ensures reads { IfOk result (λ chosen.
        HasGridsOptions (map string_bytes words.now) chosen.keep chosen.patches chosen.by) }
    ensures refuses { IfErr result (λ fail. fail ≡ WordsFail.Usage
        → (keep : AnyKeep) (patches : AnyPatches) (by : ℕ)
        → ¬ HasGridsOptions (map string_bytes words.now) keep patches by) }
{
    let names = ["keep", "patches", "by"];
    let matches = read_options(alloc, &names, words)?;
    let keep = matches.get_str("keep").unwrap();
    let patches = matches.get_str("patches").unwrap();
    let by = matches.get_str("by").unwrap();
    let Some(keep) = read_keep(keep.as_bytes()) else {
        return Err(WordsFail::Usage);
    };
    let Some(patches) = read_patches(patches.as_bytes()) else {
        return Err(WordsFail::Usage);
    };
    match read_count(by.as_bytes(), MAX_MULTIPLE) {
        Some(by) => Ok(ChosenGrids { keep, patches, by }),
        None => Err(WordsFail::Usage),
    }
}
