//! One run of the program: its words, its streams and its exit status.

ghost use Rattle.std.specs.Prelude.{map, string_bytes};
ghost use Rattle.def_io.specs.Moves.{stream};
ghost use Rattle.def_run.specs.Exits.{Ends, Exits};

use crate::command::run;
use def_run::{Answer, MAX_WORD};
use qm_io::{CommandLine, Sink, Source, words_of};
use std::alloc::Global;

/// Runs the command line of a process and answers its exit status. Want of memory for the words prints nothing.
pub fn run_process<W: CommandLine, S: Source, O: Sink, E: Sink>(
    alloc: Global,
    line: &W,
    input: &mut S,
    out: &mut O,
    err: &mut E,
) -> u8
    ensures ends { Ends (W.given line.now) (stream S.state input.old input.new)
        (stream O.state out.old out.new) (stream E.state err.old err.new) result }
{
    match words_of(alloc, line, &mut [0; MAX_WORD]) {
        Ok(words) => exit_status(alloc, &words, input, out, err),
        Err(_) => Answer::Memory.status(),
    }
}

/// Runs one command line and answers the exit status.
pub fn exit_status<S: Source, O: Sink, E: Sink>(
    alloc: Global,
    words: &[String],
    input: &mut S,
    out: &mut O,
    err: &mut E,
) -> u8
    ensures exits { Exits (map string_bytes words.now) (stream S.state input.old input.new)
        (stream O.state out.old out.new) (stream E.state err.old err.new) result }
{
    run(alloc, words, input, out, err).status()
}
