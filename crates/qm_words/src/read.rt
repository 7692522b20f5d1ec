//! The command of a line.

ghost use Rattle.std.specs.Prelude.{◌≡◌, ◌↔◌, ◌⊎◌, [], map, string_bytes, IfOk, IfErr, IsTrue};
ghost use Rattle.def_run.specs.CommandLines.{name_of, HasOptions, IsCommand};
ghost use Rattle.def_run.specs.declared.command.Command.{Command as AnyCommand};

use crate::values::{cut_of, edge_of, fit_of, fixed_settings_of, grids_of, number_of, settings_of};
use def_run::{Command, MAX_MULTIPLE, MAX_SIZE, WordsFail};
use std::alloc::Global;

/// The command that these words, those after the program's name, ask for.
pub fn read_words(alloc: Global, words: &[String]) -> Result<Command, WordsFail>
    ensures reads { IfOk result (IsCommand (map string_bytes words.now)) }
    ensures refuses { IfErr result (λ fail. fail ≡ WordsFail.Usage
        → (command : AnyCommand) → ¬ IsCommand (map string_bytes words.now) command) }
    ensures accepts { (command : AnyCommand) → IsCommand (map string_bytes words.now) command
        → (result ≡ Ok command) ⊎ (result ≡ Err WordsFail.Memory) }
{
    read_line(alloc, words)
}

fn read_line(alloc: Global, words: &[String]) -> Result<Command, WordsFail>
    ensures reads { IfOk result (IsCommand (map string_bytes words.now)) }
    ensures refuses { IfErr result (λ fail. fail ≡ WordsFail.Usage
        → (command : AnyCommand) → ¬ IsCommand (map string_bytes words.now) command) }
{
    match words {
        [] => Err(WordsFail::Usage),
        [name, rest @ ..] => read_command(alloc, name.as_str(), rest),
    }
}

/// The command of this name with these options.
fn read_command(alloc: Global, name: &str, rest: &[String]) -> Result<Command, WordsFail>
    ensures reads { IfOk result (λ command.
        (name.now ≡ name_of command) × HasOptions command (map string_bytes rest.now)) }
    ensures refuses { IfErr result (λ fail. fail ≡ WordsFail.Usage
        → (command : AnyCommand) → name.now ≡ name_of command → ¬ HasOptions command (map string_bytes rest.now)) }
{
    if is_word(name, "tidy") {
        return alone(Command::Tidy, rest);
    }
    if is_word(name, "graph") {
        return alone(Command::Graph, rest);
    }
    if is_word(name, "refine") {
        let by = number_of(alloc, "by", MAX_MULTIPLE, rest)?;
        return Ok(Command::Refine { by });
    }
    if is_word(name, "remesh") {
        let asked = settings_of(alloc, rest)?;
        return Ok(Command::Remesh {
            settings: asked.settings,
            auto: asked.auto,
        });
    }
    if is_word(name, "check") {
        return alone(Command::Check, rest);
    }
    if is_word(name, "bench") {
        let size = number_of(alloc, "size", MAX_SIZE, rest)?;
        return Ok(Command::Bench { size });
    }
    if is_word(name, "crease") {
        let settings = fixed_settings_of(alloc, rest)?;
        return Ok(Command::Crease { settings });
    }
    if is_word(name, "size") {
        let asked = edge_of(alloc, rest)?;
        return Ok(Command::Size {
            edge: asked.edge,
            floor: asked.floor,
        });
    }
    if is_word(name, "coarse") {
        let settings = fixed_settings_of(alloc, rest)?;
        return Ok(Command::Coarse { settings });
    }
    if is_word(name, "blocks") {
        let by = number_of(alloc, "by", MAX_MULTIPLE, rest)?;
        return Ok(Command::Blocks { by });
    }
    if is_word(name, "map") {
        return alone(Command::Map, rest);
    }
    if is_word(name, "fit") {
        let fit = fit_of(alloc, rest)?;
        return Ok(Command::Fit { fit });
    }
    if is_word(name, "layout") {
        let chosen = cut_of(alloc, rest)?;
        return Ok(Command::LayOut {
            keep: chosen.keep,
            patches: chosen.patches,
        });
    }
    if is_word(name, "grids") {
        let chosen = grids_of(alloc, rest)?;
        return Ok(Command::Grids {
            keep: chosen.keep,
            patches: chosen.patches,
            by: chosen.by,
        });
    }
    Err(WordsFail::Usage)
}

/// A command that has no options.
fn alone(command: Command, rest: &[String]) -> Result<Command, WordsFail>
    ensures reads { IfOk result (λ read. (read ≡ command) × (rest.now ≡ [])) }
    ensures refuses { IfErr result (λ fail. ¬ (rest.now ≡ [])) }
{
    if rest.is_empty() {
        Ok(command)
    } else {
        Err(WordsFail::Usage)
    }
}

/// Whether a word is this one.
fn is_word(word: &str, wanted: &str) -> bool
    ensures { IsTrue result ↔ (word.now ≡ wanted.now) }
{
    word == wanted
}
