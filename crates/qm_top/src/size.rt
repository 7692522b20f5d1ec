//! `size`: a mesh is read, and remeshed with edges of a given length.

ghost use Rattle.std.specs.Prelude.{◌≡◌, ◌≤◌, ◌++◌, ◌∷◌, [], pos, ◌≤ℤ◌, IfOk, IfErr, OnOk};
ghost use Rattle.def_fit.specs.declared.fit.Aim.TheVariants.{Edge};
ghost use Rattle.def_flow.specs.declared.limits.TheConstants.{MAX_FLOOR};
ghost use Rattle.def_io.specs.Bytes.{Bytes};
ghost use Rattle.def_io.specs.Moves.{change, stream};
ghost use Rattle.def_io.specs.declared.TheConstants.{LINE_FEED};
ghost use Rattle.def_run.specs.Size.{size_head, AsksForNearSize, AsksForSize};
ghost use Rattle.qm_top.specs.Fitting.{FailsNear, IsFarTask, IsOfWishes};
ghost use Rattle.qm_top.specs.Runs.{HasRun};
ghost use Rattle.qm_top.specs.Writing.{IsUnwritten, ShowsAsked, WroteText};

use crate::cuts::traced_cut;
use crate::finishing::write_framed;
use crate::input::read_mesh;
use crate::refusal::Refusal;
use def_io::LINE_FEED;
use def_run::Command;
use def_text::Micro;
use qm_dec::write_micro;
use qm_io::{Memory, Sink, Source};
use qm_print::push_number;
use qm_remesh::keep_sized;
use qm_stages::Meshed;
use qm_write::Framed;
use std::alloc::Global;

/// Reads a mesh, and writes a new one with edges as near to this length as can be, with their certificate.
pub(crate) fn size<S: Source, O: Sink>(
    alloc: Global,
    edge: Micro,
    floor: u32,
    input: &mut S,
    out: &mut O,
) -> Result<(), Refusal>
    requires edge { pos 1 ≤ℤ edge }
    requires floor { (1 ≤ floor) × (floor ≤ MAX_FLOOR) }
    ensures { HasRun (Command.Size edge floor)
        (change (S.state input.old) (S.state input.new))
        (stream O.state out.old out.new) result }
{
    let read = read_mesh(alloc, input)?;
    size_mesh(alloc, edge, floor, read, out)
}

/// Writes a mesh with edges near this length.
fn size_mesh<O: Sink>(
    alloc: Global,
    edge: Micro,
    floor: u32,
    read: Meshed,
    out: &mut O,
) -> Result<(), Refusal>
    requires edge { pos 1 ≤ℤ edge }
    requires floor { (1 ≤ floor) × (floor ≤ MAX_FLOOR) }
    ensures done { (bytes : Bytes) → OnOk result (WroteText
        (ShowsAsked (AsksForNearSize edge floor) bytes read)
        (change (O.state out.old) (O.state out.new))) }
    ensures refused { (bytes : Bytes) → IfErr result (IsUnwritten
        (ShowsAsked (AsksForNearSize edge floor) bytes read)
        (IsOfWishes (FailsNear (AsksForSize edge floor) (AsksForNearSize edge floor) bytes read)
        (IsFarTask (Edge edge) (AsksForSize edge floor) bytes read)) (stream O.state out.old out.new)) }
{
    let cut = traced_cut(alloc, read)?;
    let remesh = keep_sized(alloc, &cut, edge, floor)?;
    let head = size_head(alloc, edge, floor)?;
    let framed = Framed {
        head,
        between: Vec::new(alloc),
        remesh,
        shares: None,
    };
    write_framed(alloc, cut, framed, out)?;
    Ok(())
}

/// The head line, and its line feed.
fn size_head(alloc: Global, edge: Micro, floor: u32) -> Result<Vec<u8>, Memory>
    ensures { IfOk result (λ text. text.items ≡ size_head edge floor ++ LINE_FEED ∷ []) }
{
    let mut text = Vec::new(alloc);
    text.extend_from_slice(b"#quadq 1 size edge ")?;
    let mut digits = [0u8; 24];
    let end = write_micro(&mut digits, edge);
    text.extend_from_slice(&digits[..end])?;
    text.extend_from_slice(b" floor ")?;
    push_number(&mut text, u64::from(floor))?;
    text.push(LINE_FEED)?;
    Ok(text)
}
