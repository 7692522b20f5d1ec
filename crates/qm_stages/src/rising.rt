//! The floors that have to rise over a cut mesh.

ghost use Rattle.std.specs.Prelude.{◌≡◌, ◌↔◌, ◌<◌, ◌^◌, length, IfOk, IsTrue};
ghost use Rattle.def_layout.specs.Lengths.{AreLengths};
ghost use Rattle.def_layout.specs.Layouts.{gluing_of};
ghost use Rattle.def_remesh.specs.NewPoints.{lengths_in};
ghost use Rattle.def_remesh.specs.Remeshed.{AreCoarse, AreDoubled};
ghost use Rattle.def_remesh.specs.Rises.{AreNeeded};

use crate::cut_mesh::CutMesh;
use def_certtext::Rise;
use qm_stitch::{are_needed, needed_rises};
use std::alloc::{AllocError, Global};

/// The floors that rise for lengths that double an edge, as `needed_rises` has them by the prices of arcs.
pub fn rises_over(
    alloc: Global,
    cut: &CutMesh,
    lengths: &[u64],
    prices: &[i64],
) -> Result<Vec<Rise>, AllocError>
    requires long { length lengths.now ≡ length cut.now.layout.arcs }
    requires lengths { AreLengths (gluing_of cut.now.layout) (lengths_in lengths.now) }
    requires few { length lengths.now < 2 ^ 32 }
    requires coarse { AreCoarse cut.now.layout lengths.now }
    requires doubled { AreDoubled cut.now.layout lengths.now }
    requires prices { length prices.now ≡ length lengths.now }
    ensures { IfOk result (λ rises. AreNeeded (gluing_of cut.now.layout) (lengths_in lengths.now) rises.items) }
{
    needed_rises(alloc, cut.layout(), lengths, prices)
}

/// Whether floors rise as they have to for these lengths.
pub fn are_needed_over(
    alloc: Global,
    cut: &CutMesh,
    lengths: &[u64],
    rises: &[Rise],
) -> Result<bool, AllocError>
    requires long { length lengths.now ≡ length cut.now.layout.arcs }
    requires lengths { AreLengths (gluing_of cut.now.layout) (lengths_in lengths.now) }
    requires coarse { AreCoarse cut.now.layout lengths.now }
    ensures { IfOk result (λ are.
        IsTrue are ↔ AreNeeded (gluing_of cut.now.layout) (lengths_in lengths.now) rises.now) }
{
    are_needed(alloc, cut.layout(), lengths, rises)
}
