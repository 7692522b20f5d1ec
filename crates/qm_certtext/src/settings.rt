//! The words of settings.

ghost use Rattle.std.specs.Prelude.{◌≡◌, ℕ, Bool, MatchOption};
ghost use Rattle.def_certtext.specs.Settings.{floor_text, weight_text, AreWordsOf, IsFloor};
ghost use Rattle.def_flow.specs.declared.net.Settings.{Settings as AnySettings};
ghost use Rattle.def_flow.specs.declared.net.Weight.{Weight as AnyWeight};

use def_certtext::Asked;
use def_flow::{MAX_FLOOR, Settings, Weight};
use qm_dec::{read_count, read_ratio};

/// The settings that the words of a scale, a floor and a weight say.
pub fn read_settings(scale: &[u8], floor: &[u8], weight: &[u8]) -> Option<Asked>
    ensures { MatchOption result
        ((settings : AnySettings) (auto : Bool) → ¬ AreWordsOf scale.now floor.now weight.now settings auto)
        (λ asked. AreWordsOf scale.now floor.now weight.now asked.settings asked.auto) }
{
    let Some((p, q)) = read_ratio(scale) else {
        return None;
    };
    let Some(least) = read_floor(floor) else {
        return None;
    };
    let Some(weight) = read_weight(weight) else {
        return None;
    };
    let settings = Settings {
        p,
        q,
        floor: least.floor,
        weight,
    };
    Some(Asked {
        settings,
        auto: least.auto,
    })
}

/// A floor, and whether it is left to the program.
#[derive(Clone, Copy)]
struct Least {
    floor: u32,
    auto: bool,
}

fn read_floor(word: &[u8]) -> Option<Least>
    ensures { MatchOption result ((floor : ℕ) (auto : Bool) → IsFloor floor auto → ¬ (word.now ≡ floor_text floor auto))
        (λ least. IsFloor least.floor least.auto × (word.now ≡ floor_text least.floor least.auto)) }
{
    if word == b"auto".as_slice() {
        return Some(Least {
            floor: 1,
            auto: true,
        });
    }
    match read_count(word, MAX_FLOOR) {
        Some(floor) => Some(Least { floor, auto: false }),
        None => None,
    }
}

fn read_weight(word: &[u8]) -> Option<Weight>
    ensures { MatchOption result ((weight : AnyWeight) → ¬ (word.now ≡ weight_text weight))
        (λ weight. word.now ≡ weight_text weight) }
{
    match word {
        b"plain" => Some(Weight::Plain),
        b"length" => Some(Weight::Length),
        _ => None,
    }
}
