//! `map`: the text of a mesh and the text of a new mesh behind it are judged, and where the new mesh lies in the old
//! one is written.

ghost use Rattle.std.specs.Prelude.{◌≡◌, ◌≤◌, length, IfErr, OnOk, OnErr};
ghost use Rattle.def_io.specs.Faults.{Rose};
ghost use Rattle.def_io.specs.Moves.{change, stream, took, TookPrefix};
ghost use Rattle.def_run.specs.Map.{WritesMap};
ghost use Rattle.qm_top.specs.Mapping.{mapped_text, IsNoMapFor};
ghost use Rattle.qm_top.specs.Runs.{HasRun};
ghost use Rattle.qm_top.specs.Writing.{IsUnwritten, WroteText};

use crate::judged::judged_refusal;
use crate::refusal::Refusal;
use def_output::Stopped;
use def_run::Command;
use def_text::MAX_BYTES;
use qm_check::judge;
use qm_io::{Sink, Source, read_bytes};
use qm_map::put_map;
use qm_output::{Buffer, Room};
use qm_stages::Regridded;
use std::alloc::Global;

/// Reads the text of a mesh and behind it that of a new one, and writes where each vertex and face of this lies.
pub(crate) fn map<S: Source, O: Sink>(
    alloc: Global,
    input: &mut S,
    out: &mut O,
) -> Result<(), Refusal>
    ensures { HasRun Command.Map
        (change (S.state input.old) (S.state input.new))
        (stream O.state out.old out.new) result }
{
    let bytes = read_bytes(alloc, input, MAX_BYTES)?;
    map_bytes(alloc, &bytes, out)
}

/// Judges the bytes, and writes their map. All memory is taken before the first byte goes out.
fn map_bytes<O: Sink>(alloc: Global, bytes: &[u8], out: &mut O) -> Result<(), Refusal>
    requires { length bytes.now ≤ MAX_BYTES }
    ensures done { OnOk result (WroteText (WritesMap bytes.now)
        (change (O.state out.old) (O.state out.new))) }
    ensures refused { IfErr result (IsUnwritten (WritesMap bytes.now) (IsNoMapFor bytes.now)
        (stream O.state out.old out.new)) }
{
    match judge(alloc, bytes) {
        Ok(new) => {
            let mut room = Room::new(alloc)?;
            write_map(&new, out, &mut room)?;
            Ok(())
        }
        Err(fail) => Err(judged_refusal(fail)),
    }
}

/// Writes the map through a buffer.
fn write_map<O: Sink>(new: &Regridded, out: &mut O, room: &mut Room) -> Result<(), Stopped>
    ensures whole { OnOk result ((O.state out.new).told ≡ took (O.state out.old).told (mapped_text new.now)) }
    ensures prefix { OnErr result (TookPrefix (O.state out.old).told (O.state out.new).told (mapped_text new.now)) }
    ensures fault { OnErr result (Rose (O.state out.old).faults (O.state out.new).faults) }
{
    let mut text = Buffer::new(out, room);
    put_map(&mut text, new)?;
    text.flush()
}
