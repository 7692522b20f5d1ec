//! The text of a new mesh behind that of the mesh it was made of, from its bytes to what its map is written from.

ghost use Rattle.std.specs.Prelude.{◌≡◌, ◌≤◌, length, Some, IfErr, IfOk};
ghost use Rattle.def_io.specs.Lines.{lines_of, tail_of};
ghost use Rattle.def_map.specs.MapText.{map_text};
ghost use Rattle.def_remesh.specs.NewPoints.{lengths_in};
ghost use Rattle.def_run.specs.Map.{WritesMap};
ghost use Rattle.def_run.specs.MapFails.{IsMapFail};
ghost use Rattle.def_run.specs.MarkLines.{front_of, IsLastMark};
ghost use Rattle.def_run.specs.declared.command.Command.{Command as AnyCommand};
ghost use Rattle.def_text.specs.declared.limits.TheConstants.{MAX_BYTES};
ghost use Rattle.qm_check.specs.Least.{least_of};
ghost use Rattle.qm_check.specs.Making.{HasMapOf, IsFound, IsGivenTo};

use crate::judging::{Finished, judge_text};
use crate::least::{Least, least_of};
use crate::making::ready_for;
use crate::old::read_old;
use crate::parts::Divided;
use crate::refined::judge_refined;
use def_run::{CheckFail, Command, Why};
use qm_headline::{find_mark, read_mark};
use qm_stages::{Meshed, Regridded};
use std::alloc::Global;

/// Judges a text. The last line that begins with `#quadq 1 ` divides it into an old text and one that the command of
/// this line is to write for it: its certificates are checked, and it is compared with the text as it is made anew.
#[tactic(auto, using(crate::proofs::Maps::unmarked_bytes))]
pub fn judge(alloc: Global, bytes: &[u8]) -> Result<Regridded, CheckFail>
    requires { length bytes.now ≤ MAX_BYTES }
    ensures map { IfOk result (λ new. WritesMap bytes.now
        (map_text new.soup new.layout new.shares (lengths_in new.lengths))) }
    ensures refused { IfErr result (IsMapFail bytes.now) }
{
    match find_mark(bytes) {
        Some(head) => judge_parts(alloc, &Divided { bytes, head }),
        None => Err(CheckFail::NotAccepted { why: Why::NoHead }),
    }
}

/// Judges the two parts that its last head line divides.
fn judge_parts(alloc: Global, text: &Divided) -> Result<Regridded, CheckFail>
    requires last { IsLastMark (lines_of text.now.bytes.now) text.now.head.line }
    ensures mapped { IfOk result (HasMapOf text.now.bytes.now) }
    ensures refused { IfErr result (IsMapFail text.now.bytes.now) }
{
    let old = read_old(alloc, &text.old_text())?;
    match read_mark(text.head_line()) {
        Some(command) => judge_command(alloc, text, old, command),
        None => Err(CheckFail::NotAccepted { why: Why::Head }),
    }
}

/// Judges what a command is to have written.
#[tactic(auto, using(error_laws::proofs::Errors::handed, crate::proofs::Maps::mapped))]
fn judge_command(
    alloc: Global,
    text: &Divided,
    old: Meshed,
    command: Command,
) -> Result<Regridded, CheckFail>
    requires given { IsGivenTo text.now.bytes.now text.now.head.line old command }
    ensures mapped { IfOk result (HasMapOf text.now.bytes.now) }
    ensures refused { IfErr result (IsMapFail text.now.bytes.now) }
{
    if let Some(least) = least_of(&command) {
        let finished = judge_least(alloc, text, old, &least)?;
        return Ok(finished.new);
    }
    match command {
        Command::Refine { by } => judge_refined(alloc, text, old, by),
        _ => unreachable!(),
    }
}

/// Judges what a command is to have written that finds least lengths.
pub(crate) fn judge_least(
    alloc: Global,
    text: &Divided,
    old: Meshed,
    least: &Least,
) -> Result<Finished, CheckFail>
    requires given { (command : AnyCommand) × IsGivenTo text.now.bytes.now text.now.head.line old command
        × (least_of command ≡ Some least.now) }
    ensures found { (command : AnyCommand) → IsGivenTo text.now.bytes.now text.now.head.line old command
        → least_of command ≡ Some least.now
        → IfOk result (IsFound command (front_of text.now.head.line text.now.bytes.now)
        (tail_of text.now.head.line text.now.bytes.now)) }
    ensures refused { IfErr result (IsMapFail text.now.bytes.now) }
{
    let front = text.old_text();
    let ready = ready_for(alloc, &front, text.head_line(), old, least)?;
    judge_text(alloc, text, ready)
}
