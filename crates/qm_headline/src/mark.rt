//! The command that a head line names, and what it asks for.

ghost use Rattle.std.specs.Prelude.{◌≡◌, ◌↔◌, ℕ, Some, false, MatchOption};
ghost use Rattle.def_certtext.specs.Settings.{AreInRange};
ghost use Rattle.def_flow.specs.declared.net.Settings.{Settings as AnySettings};
ghost use Rattle.def_run.specs.MarkLines.{IsMarkLine, IsRefineHead};
ghost use Rattle.def_run.specs.declared.command.Command.{Command as AnyCommand};
ghost use Rattle.qm_certtext.specs.Cuts.{asked_line};

use crate::size::read_size;
use def_flow::Settings;
use def_run::{Command, MAX_MULTIPLE};
use qm_certtext::{read_asked, read_head};
use qm_dec::read_count;
use qm_fit::read_fit_head;

/// The command whose head line this is, of those that write a new mesh. Linear.
#[tactic(auto, using(crate::proofs::Sizes::read_only))]
pub fn read_mark(line: &[u8]) -> Option<Command>
    ensures { (command : AnyCommand) → (result ≡ Some command) ↔ IsMarkLine line.now command }
{
    read_command(line)
}

fn read_command(line: &[u8]) -> Option<Command>
    ensures { MatchOption result ((command : AnyCommand) → ¬ IsMarkLine line.now command) (IsMarkLine line.now) }
{
    if let Some(by) = read_multiple(line) {
        return Some(Command::Refine { by });
    }
    if let Some(asked) = read_head(line) {
        return Some(Command::Remesh {
            settings: asked.settings,
            auto: asked.auto,
        });
    }
    if let Some(settings) = read_fixed(line, b"#quadq 1 crease scale ") {
        return Some(Command::Crease { settings });
    }
    if let Some(asked) = read_size(line) {
        return Some(Command::Size {
            edge: asked.edge,
            floor: asked.floor,
        });
    }
    if let Some(settings) = read_fixed(line, b"#quadq 1 coarse scale ") {
        return Some(Command::Coarse { settings });
    }
    match read_fit_head(line) {
        Some(fit) => Some(Command::Fit { fit }),
        None => None,
    }
}

/// The multiple in a head line of `refine`.
fn read_multiple(line: &[u8]) -> Option<u32>
    ensures { MatchOption result ((by : ℕ) → ¬ IsRefineHead line.now by) (IsRefineHead line.now) }
{
    match line.strip_prefix(b"#quadq 1 refine by ") {
        Some(rest) => read_count(rest, MAX_MULTIPLE),
        None => None,
    }
}

/// The settings behind a prefix, where their floor is a number.
fn read_fixed(line: &[u8], prefix: &[u8]) -> Option<Settings>
    ensures { MatchOption result
        ((settings : AnySettings) → AreInRange settings false → ¬ (line.now ≡ asked_line prefix.now settings false))
        (λ settings. AreInRange settings false × (line.now ≡ asked_line prefix.now settings false)) }
{
    let Some(asked) = read_asked(line, prefix) else {
        return None;
    };
    if asked.auto {
        return None;
    }
    Some(asked.settings)
}
