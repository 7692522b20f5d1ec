//! `tidy`: a mesh is read, and its canonical text is written.

ghost use Rattle.std.specs.Prelude.{◌≡◌, OnOk, OnErr};
ghost use Rattle.def_io.specs.Faults.{Rose};
ghost use Rattle.def_io.specs.Moves.{change, stream, took, TookPrefix};
ghost use Rattle.def_text.specs.Canonical.{canonical_text};
ghost use Rattle.qm_top.specs.Runs.{HasRun};

use crate::input::read_mesh;
use crate::refusal::Refusal;
use def_output::Stopped;
use def_run::Command;
use def_text::Soup;
use qm_io::{Sink, Source};
use qm_obj::put_soup;
use qm_output::{Buffer, Room};
use std::alloc::Global;

/// Reads a mesh, checks that it is a manifold and writes its canonical text.
pub(crate) fn tidy<S: Source, O: Sink>(
    alloc: Global,
    input: &mut S,
    out: &mut O,
) -> Result<(), Refusal>
    ensures { HasRun Command.Tidy
        (change (S.state input.old) (S.state input.new))
        (stream O.state out.old out.new) result }
{
    let read = read_mesh(alloc, input)?;
    let mut room = Room::new(alloc)?;
    write_soup(read.soup(), out, &mut room)?;
    Ok(())
}

/// Writes the canonical text of a soup.
fn write_soup<O: Sink>(soup: &Soup, out: &mut O, room: &mut Room) -> Result<(), Stopped>
    ensures whole { OnOk result ((O.state out.new).told ≡ took (O.state out.old).told (canonical_text soup.now)) }
    ensures prefix { OnErr result (TookPrefix (O.state out.old).told (O.state out.new).told (canonical_text soup.now)) }
    ensures fault { OnErr result (Rose (O.state out.old).faults (O.state out.new).faults) }
{
    let mut text = Buffer::new(out, room);
    put_soup(&mut text, soup)?;
    text.flush()
}
