//! The lines of riders.

ghost use Rattle.std.specs.Prelude.{◌≡◌, ◌<◌, ◌++◌, OnOk};
ghost use Rattle.std.specs.List.{flat_map, All};
ghost use Rattle.def_mesh.specs.Darts.{darts};
ghost use Rattle.def_cut.specs.declared.graph.Rider.{Rider as Ridden};
ghost use Rattle.def_report.specs.GraphText.{rider_line, stop_line};

use crate::Memory;
use crate::lines::{push_line, push_numbers};
use def_cut::{Rider, Stop};
use qm_mesh::Mesh;

/// Puts the lines of riders at the end of a text.
pub(crate) fn push_riders(text: &mut Vec<u8>, mesh: &Mesh, riders: &[Rider]) -> Result<(), Memory>
    requires { All (λ (rider : Ridden). rider.start < darts mesh.now) riders.now }
    ensures { OnOk result (text.new.items ≡ text.old.items ++ flat_map (rider_line mesh.now) riders.now) }
{
    for rider in riders {
        push_rider(text, mesh, rider)?;
    }
    Ok(())
}

/// The ends of a rider's first dart, its rides and its stop.
fn push_rider(text: &mut Vec<u8>, mesh: &Mesh, rider: &Rider) -> Result<(), Memory>
    requires { rider.now.start < darts mesh.now }
    ensures { OnOk result (text.new.items ≡ text.old.items ++ rider_line mesh.now rider.now) }
{
    let from = u64::from(mesh.from(rider.start)) + 1;
    let to = u64::from(mesh.to(rider.start)) + 1;
    text.extend_from_slice(b"rider")?;
    push_numbers(text, &[from, to, u64::from(rider.rides)])?;
    push_stop(text, rider.stop)
}

/// Why a rider stopped, and where.
fn push_stop(text: &mut Vec<u8>, stop: Stop) -> Result<(), Memory>
    ensures { OnOk result (text.new.items ≡ text.old.items ++ stop_line stop) }
{
    match stop {
        Stop::Middle { from, to } => push_line(
            text,
            b" middle",
            &[u64::from(from) + 1, u64::from(to) + 1],
        ),
        Stop::Boundary { vertex } => push_line(text, b" boundary", &[u64::from(vertex) + 1]),
        Stop::Singular { vertex } => push_line(text, b" singular", &[u64::from(vertex) + 1]),
        Stop::Trail { vertex } => push_line(text, b" trail", &[u64::from(vertex) + 1]),
        Stop::Tie { vertex } => push_line(text, b" tie", &[u64::from(vertex) + 1]),
    }
}
