//! The numbering of a layout with lengths, whether or not an edge is doubled.

ghost use Rattle.std.specs.Prelude.{◌≡◌, ◌<◌, ◌≤◌, ◌-◌, ℕ, length, IfOk, IfErr};
ghost use Rattle.def_layout.specs.Layouts.{gluing_of, layout_of};
ghost use Rattle.def_layoutnet.specs.MeshLayouts.{IsSomeLayout};
ghost use Rattle.def_remesh.specs.NewPoints.{lengths_in};
ghost use Rattle.def_remesh.specs.Numberings.{tables_of, AreRunStarts, IsNumbering};
ghost use Rattle.qm_stitch.specs.Sizes.{product_by, AreRows, IsFine, IsTooFine};

use crate::count::count_faces;
use crate::numbering::Numbering;
use crate::size::last_of;
use crate::stretched::Stretched;
use def_layout::TMesh;
use def_remesh::{MAX_NEW_FACES, RunStarts, StitchFail, Tables};
use qm_offsets::{inner_points, no_starts, push_start, short_lengths, side_tables, starts_on};
use std::alloc::{AllocError, Global};

/// The numbering of the points and faces of a layout with these lengths, also where an edge is doubled. It is refused
/// as `TooFine` exactly where there are more faces than the limit.
pub(crate) fn number(alloc: Global, stretched: &Stretched) -> Result<Numbering, StitchFail>
    requires layout { IsSomeLayout (layout_of stretched.now.t.now) }
    ensures numbering { IfOk result (λ n. IsNumbering (layout_of stretched.now.t.now) n) }
    ensures lengths { IfOk result (λ n. n.lengths.items ≡ stretched.now.lengths.now) }
    ensures refused { IfErr result
        (IsTooFine (gluing_of (layout_of stretched.now.t.now)) (lengths_in stretched.now.lengths.now)) }
{
    let faces = count_faces(stretched);
    if faces > u128::from(MAX_NEW_FACES) {
        return Err(StitchFail::TooFine { faces });
    }
    let tables = tables(alloc, stretched.t, stretched.lengths)?;
    Ok(Numbering { tables })
}

/// The tables of a numbering.
pub(crate) fn tables(alloc: Global, t: &TMesh, lengths: &[u64]) -> Result<Tables, AllocError>
    requires fine { IsFine (layout_of t.now) lengths.now }
    ensures numbering { IfOk result (λ tables. IsNumbering (layout_of t.now) tables) }
    ensures lengths { IfOk result (λ tables. tables.lengths.items ≡ lengths.now) }
{
    let lengths = short_lengths(alloc, lengths)?;
    let sides = side_tables(alloc, t, &lengths)?;
    let along = inner_points(alloc, &lengths)?;
    let inside = patch_starts(alloc, &sides, 1)?;
    let cells = patch_starts(alloc, &sides, 0)?;
    Ok(Tables {
        nodes: t.nodes.len() as u32,
        lengths,
        along,
        inside,
        cells,
        sides,
    })
}

/// Where the cells of patches begin, or, with `less` 1, their inner points.
fn patch_starts(alloc: Global, sides: &[[RunStarts; 4]], less: u32) -> Result<RunStarts, AllocError>
    requires { AreRows (tables_of sides.now) less }
    ensures { IfOk result (λ starts.
        AreRunStarts (product_by (tables_of sides.now) less) (length sides.now) starts.begin.items) }
{
    let mut starts = no_starts(alloc, sides.len())?;
    for patch in 0..sides.len() {
        let wide = last_of(starts_on(sides, patch, 0)) - less;
        let high = last_of(starts_on(sides, patch, 3)) - less;
        push_start(&mut starts, wide * high)?;
    }
    Ok(starts)
}
