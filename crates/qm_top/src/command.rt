//! One command line, from its words to its answer.

ghost use Rattle.std.specs.Prelude.{◌≡◌, ℕ, map, string_bytes};
ghost use Rattle.def_io.specs.Moves.{change, stream};
ghost use Rattle.def_run.specs.CommandLines.{IsCommand};
ghost use Rattle.def_run.specs.Exits.{RunsTo};
ghost use Rattle.def_run.specs.Messages.{Said};
ghost use Rattle.def_text.specs.Types.{Words};
ghost use Rattle.qm_top.specs.Runs.{HasRun};

use crate::bench::bench;
use crate::blocks::blocks;
use crate::check::check;
use crate::coarse::coarse;
use crate::crease::crease;
use crate::error_line::error_line_of;
use crate::fit::fit;
use crate::graph::graph;
use crate::grids::grids;
use crate::layout::layout;
use crate::map::map;
use crate::refine::refine;
use crate::refusal::{Refusal, words_answer};
use crate::remesh::remesh;
use crate::size::size;
use crate::tidy::tidy;
use def_certtext::Asked;
use def_run::{Answer, Command};
use qm_blocktext::Chosen;
use qm_io::{Sink, Source, write_all};
use qm_print::Line;
use qm_words::read_words;
use std::alloc::Global;

/// Runs one command line: `words` are the words after the program's name.
///
/// `out` gets nothing unless the run is `Done`, or the write to it failed. Every answer but `Done` writes one line to
/// `err`. A failure of `err` changes neither the answer nor `out`.
pub fn run<S: Source, O: Sink, E: Sink>(
    alloc: Global,
    words: &[String],
    input: &mut S,
    out: &mut O,
    err: &mut E,
) -> Answer
    ensures { RunsTo (map string_bytes words.now) (stream S.state input.old input.new)
        (stream O.state out.old out.new) (stream E.state err.old err.new) result }
{
    let command = match read_words(alloc, words) {
        Ok(command) => command,
        Err(fail) => {
            let answer = words_answer(fail);
            say(err, &error_line_of(&answer, &[]));
            return answer;
        }
    };
    match run_command(alloc, command, input, out) {
        Ok(()) => Answer::Done,
        Err(refusal) => {
            let reply = refusal.into_reply(alloc);
            say(err, &error_line_of(&reply.answer, &reply.names));
            reply.answer
        }
    }
}

/// Runs a command.
fn run_command<S: Source, O: Sink>(
    alloc: Global,
    command: Command,
    input: &mut S,
    out: &mut O,
) -> Result<(), Refusal>
    requires spoken { (words : Words) × IsCommand words command }
    ensures run { HasRun command
        (change (S.state input.old) (S.state input.new)) (stream O.state out.old out.new) result }
    ensures unasked { (size : ℕ) → Command.Bench size ≡ command → input.new ≡ input.old }
{
    match command {
        Command::Tidy => tidy(alloc, input, out),
        Command::Graph => graph(alloc, input, out),
        Command::Refine { by } => refine(alloc, by, input, out),
        Command::Remesh { settings, auto } => remesh(alloc, Asked { settings, auto }, input, out),
        Command::Check => check(alloc, input, out),
        Command::Bench { size } => bench(alloc, size, out),
        Command::Crease { settings } => crease(alloc, settings, input, out),
        Command::Size { edge, floor } => size(alloc, edge, floor, input, out),
        Command::Coarse { settings } => coarse(alloc, settings, input, out),
        Command::Blocks { by } => blocks(alloc, by, input, out),
        Command::Map => map(alloc, input, out),
        Command::Fit { fit: asked } => fit(alloc, &asked, input, out),
        Command::LayOut { keep, patches } => layout(alloc, Chosen { keep, patches }, input, out),
        Command::Grids { keep, patches, by } => {
            grids(alloc, Chosen { keep, patches }, by, input, out)
        }
    }
}

/// Hands a line to the error sink. Where that fails there is no one to tell.
fn say<E: Sink>(err: &mut E, line: &Line)
    ensures { Said line.now.bytes (change (E.state err.old) (E.state err.new)) }
{
    let _ = write_all(err, line.as_str().as_bytes());
}
