//! What a head line of `size` asks for.

ghost use Rattle.std.specs.Prelude.{◌≡◌, ◌≤◌, ℕ, ℤ, pos, ◌≤ℤ◌, unsigned_abs, MatchOption};
ghost use Rattle.def_run.specs.MarkLines.{IsSizeHead};
ghost use Rattle.def_text.specs.Canonical.{micro_text};
ghost use Rattle.def_text.specs.declared.limits.TheConstants.{MAX_MICRO};

use def_flow::MAX_FLOOR;
use def_text::Micro;
use qm_certtext::cut_word;
use qm_dec::read_count;
use qm_fit::{is_micro_text, read_edge};

/// The length of an edge, and the least length of an arc.
#[derive(Clone, Copy)]
pub(crate) struct EdgeAndFloor {
    pub(crate) edge: Micro,
    pub(crate) floor: u32,
}

/// The length and the floor in a head line of `size`.
#[tactic(auto, using(crate::proofs::Sizes::no_front))]
pub(crate) fn read_size(line: &[u8]) -> Option<EdgeAndFloor>
    ensures { MatchOption result ((edge : ℤ) (floor : ℕ) → ¬ IsSizeHead line.now edge floor)
        (λ asked. IsSizeHead line.now asked.edge asked.floor) }
{
    let Some(rest) = line.strip_prefix(b"#quadq 1 size edge ") else {
        return None;
    };
    let Some((word, rest)) = cut_word(rest, b" floor ") else {
        return None;
    };
    let Some(edge) = read_written(word) else {
        return None;
    };
    match read_count(rest, MAX_FLOOR) {
        Some(floor) => Some(EdgeAndFloor { edge, floor }),
        None => None,
    }
}

/// The length whose canonical text a word is, where that is at least a millionth.
#[tactic(auto, using(crate::proofs::Sizes::near_read))]
fn read_written(word: &[u8]) -> Option<Micro>
    ensures { MatchOption result
        ((edge : ℤ) → pos 1 ≤ℤ edge → unsigned_abs edge ≤ MAX_MICRO → ¬ (word.now ≡ micro_text edge))
        (λ edge. (word.now ≡ micro_text edge) × (pos 1 ≤ℤ edge) × (unsigned_abs edge ≤ MAX_MICRO)) }
{
    let Some(edge) = read_edge(word) else {
        return None;
    };
    if is_micro_text(word, edge) {
        Some(edge)
    } else {
        None
    }
}
