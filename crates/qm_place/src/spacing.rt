//! The parameters of the inner points of arcs by shares.

ghost use Rattle.std.specs.Prelude.{◌≡◌, ◌<◌, ◌≤◌, ◌+◌, ◌-◌, IfOk, OnOk, Some, false, length};
ghost use Rattle.def_layout.specs.Layouts.{layout_of};
ghost use Rattle.def_written.specs.Spacings.{counted, inner_step, step_parameter};
ghost use Rattle.def_remesh.specs.NewPoints.{lengths_in};
ghost use Rattle.def_remesh.specs.Placings.{AreSpaced};
ghost use Rattle.def_remesh.specs.Spaced.{spacing_by};
ghost use Rattle.qm_place.specs.Paths.{share_by};
ghost use Rattle.qm_place.specs.ArcTables.{AreFine};
ghost use Rattle.qm_place.specs.Pushed.{ArePushed};

use crate::path::{ArcDarts, path_of};
use crate::walk::{Reached, parameter_at, reach};
use def_layout::TMesh;
use def_remesh::DartShares;
use std::alloc::{AllocError, Global};

/// The parameters of the inner points of all arcs, where each new edge of an arc gets an equal part of the shares of
/// its old edges. Linear in these points and the old edges.
pub(crate) fn shared_parameters(
    alloc: Global,
    t: &TMesh,
    lengths: &[u32],
    shares: &DartShares,
) -> Result<Vec<u64>, AllocError>
    requires fine { AreFine (layout_of t.now) lengths.now }
    ensures { IfOk result (λ parameters. AreSpaced (layout_of t.now) (lengths_in lengths.now)
        (spacing_by (layout_of t.now) (Some shares.now) (lengths_in lengths.now)) parameters.items) }
{
    let mut parameters = Vec::new(alloc);
    for arc in 0..t.arcs.len() {
        let darts = ArcDarts {
            all: &t.arcs[arc].darts,
        };
        push_shared(&mut parameters, &darts, lengths[arc], shares)?;
    }
    Ok(parameters)
}

/// Puts those of the inner points of an arc behind the others.
fn push_shared(
    parameters: &mut Vec<u64>,
    darts: &ArcDarts,
    new: u32,
    shares: &DartShares,
) -> Result<(), AllocError>
    requires { 0 < new }
    ensures { OnOk result (ArePushed parameters.old.items parameters.new.items (new - 1) (λ i. step_parameter
        (inner_step (counted (share_by darts.now.all.now shares.now false) (length darts.now.all.now))
        (length darts.now.all.now) new (i + 1)))) }
{
    let path = path_of(darts, shares);
    let mut at = Reached::new();
    for k in 1..new {
        at = reach(&path, at, k, new);
        parameters.push(parameter_at(&path, at, k, new))?;
    }
    Ok(())
}
