//! `check`: an old text and the text of a remesh or of a fit of its mesh are checked.

ghost use Rattle.std.specs.Prelude.{◌≡◌, ◌≤◌, length, IfErr, OnOk};
ghost use Rattle.def_io.specs.Moves.{change, stream};
ghost use Rattle.def_remesh.specs.Checked.{accepted_line};
ghost use Rattle.def_run.specs.Checking.{WritesAccepted};
ghost use Rattle.qm_top.specs.Checking.{IsUnaccepted};
ghost use Rattle.qm_top.specs.Runs.{HasRun};
ghost use Rattle.qm_top.specs.Writing.{IsUnwritten, WroteText};

use crate::judged::judged_refusal;
use crate::refusal::Refusal;
use def_run::Command;
use def_text::MAX_BYTES;
use qm_check::{Accepted, check_pair};
use qm_io::{Sink, Source, read_bytes, write_all};
use qm_print::{Line, numbered_line, push_integer, push_numbered};
use std::alloc::Global;

/// Reads an old text and the text of a remesh or of a fit behind it, and writes the line that accepts them.
pub(crate) fn check<S: Source, O: Sink>(
    alloc: Global,
    input: &mut S,
    out: &mut O,
) -> Result<(), Refusal>
    ensures { HasRun Command.Check
        (change (S.state input.old) (S.state input.new))
        (stream O.state out.old out.new) result }
{
    let bytes = read_bytes(alloc, input, MAX_BYTES)?;
    check_bytes(alloc, &bytes, out)
}

/// Checks the bytes, and writes the line that accepts them.
fn check_bytes<O: Sink>(alloc: Global, bytes: &[u8], out: &mut O) -> Result<(), Refusal>
    requires { length bytes.now ≤ MAX_BYTES }
    ensures done { OnOk result (WroteText (WritesAccepted bytes.now)
        (change (O.state out.old) (O.state out.new))) }
    ensures refused { IfErr result (IsUnwritten (WritesAccepted bytes.now) (IsUnaccepted bytes.now)
        (stream O.state out.old out.new)) }
{
    match check_pair(alloc, bytes) {
        Ok(accepted) => {
            write_all(out, accepted_line(accepted).as_str().as_bytes())?;
            Ok(())
        }
        Err(fail) => Err(judged_refusal(fail)),
    }
}

/// The line that accepts a pair.
fn accepted_line(accepted: Accepted) -> Line
    ensures { result.bytes ≡ accepted_line accepted.arcs accepted.faces accepted.deviation }
{
    let mut line = numbered_line("accepted arcs ", u64::from(accepted.arcs), " faces ");
    push_numbered(&mut line, u64::from(accepted.faces), " deviation ");
    push_integer(&mut line, accepted.deviation, "\n");
    line
}
