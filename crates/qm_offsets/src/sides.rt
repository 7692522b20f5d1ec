//! The sides of patches, and where the arcs on them begin.

ghost use Rattle.std.specs.Prelude.{◌≡◌, ◌<◌, ◌^◌, ℕ, [], length, map, slice_index_or, IfOk};
ghost use Rattle.std.specs.List.{All};
ghost use Rattle.def_math.specs.Counts.{count_below};
ghost use Rattle.def_layout.specs.Gluings.{Way};
ghost use Rattle.def_layout.specs.Lengths.{size};
ghost use Rattle.def_layout.specs.Layouts.{gluing_of, layout_of};
ghost use Rattle.def_layout.specs.declared.tmesh.Side.{Side as Arcs};
ghost use Rattle.def_layout.specs.declared.tmesh.SideArc.{SideArc as Used};
ghost use Rattle.def_layoutnet.specs.MeshLayouts.{IsSomeLayout};
ghost use Rattle.def_remesh.specs.NewPoints.{lengths_in};
ghost use Rattle.def_remesh.specs.Numberings.{sizes_on, tables_of, AreSideStarts, AreRunStarts};
ghost use Rattle.def_known.specs.Sides.{AreSides};
ghost use Rattle.qm_offsets.specs.Fours.{begins_of, AreFourStarts, IsTableOf};

use crate::starts::{no_starts, push_start};
use crate::summed::Summed;
use def_layout::{Side, SideArc, TMesh};
use def_remesh::RunStarts;
use std::alloc::{AllocError, Global};

/// The arcs on a side of a patch: 0 is south, 1 east, 2 north and 3 west.
pub fn side_of(t: &TMesh, patch: usize, side: usize) -> &[SideArc]
    requires sides { AreSides (layout_of t.now) }
    requires low { patch < length t.now.patches.items }
    requires side { side < 4 }
    ensures { result.now ≡ slice_index_or (slice_index_or (layout_of t.now).sides patch []) side [] }
{
    uses_on(&t.sides, patch, side)
}

/// The same, of the sides of all patches.
fn uses_on(sides: &[[Side; 4]], patch: usize, side: usize) -> &[SideArc]
    requires low { patch < length sides.now }
    requires four { length
        (slice_index_or (map (λ four. map (λ (side : Arcs). side.arcs.items) four) sides.now) patch []) ≡ 4 }
    requires side { side < 4 }
    ensures { result.now ≡ slice_index_or
        (slice_index_or (map (λ four. map (λ (side : Arcs). side.arcs.items) four) sides.now) patch []) side [] }
{
    let four = &sides[patch];
    &four[side].arcs
}

/// Where the arcs on a side of a patch begin.
pub fn starts_on(sides: &[[RunStarts; 4]], patch: usize, side: usize) -> &[u32]
    requires low { patch < length sides.now }
    requires four { length (slice_index_or (tables_of sides.now) patch []) ≡ 4 }
    requires side { side < 4 }
    ensures { result.now ≡ slice_index_or (slice_index_or (tables_of sides.now) patch []) side [] }
{
    let four = &sides[patch];
    &four[side].begin
}

/// Where arcs of these lengths begin on a side.
fn side_starts(alloc: Global, side: &[SideArc], lengths: &[u32]) -> Result<RunStarts, AllocError>
    requires low { All (λ (used : Used). used.arc < length lengths.now) side.now }
    requires small { count_below (sizes_on side.now (lengths_in lengths.now)) (length side.now) < 2 ^ 32 }
    ensures { IfOk result (λ starts.
        AreRunStarts (sizes_on side.now (lengths_in lengths.now)) (length side.now) starts.begin.items) }
{
    let mut starts = no_starts(alloc, side.len())?;
    for used in side {
        push_start(&mut starts, lengths[used.arc as usize])?;
    }
    Ok(starts)
}

/// The table of a side of a patch.
fn starts_of(
    alloc: Global,
    summed: &Summed,
    patch: usize,
    side: usize,
) -> Result<RunStarts, AllocError>
    requires low { patch < length summed.now.t.now.patches.items }
    requires side { side < 4 }
    ensures { IfOk result (λ starts.
        IsTableOf (layout_of summed.now.t.now) (lengths_in summed.now.lengths.now) patch side starts.begin.items) }
{
    let arcs = side_of(summed.t, patch, side);
    side_starts(alloc, arcs, summed.lengths)
}

/// The tables of the four sides of a patch.
fn four_starts(alloc: Global, summed: &Summed, patch: usize) -> Result<[RunStarts; 4], AllocError>
    requires { patch < length summed.now.t.now.patches.items }
    ensures { IfOk result (λ four.
        AreFourStarts (layout_of summed.now.t.now) (lengths_in summed.now.lengths.now) patch (begins_of four)) }
{
    let south = starts_of(alloc, summed, patch, 0)?;
    let east = starts_of(alloc, summed, patch, 1)?;
    let north = starts_of(alloc, summed, patch, 2)?;
    let west = starts_of(alloc, summed, patch, 3)?;
    Ok([south, east, north, west])
}

/// The tables of all sides. Linear in the arcs on them.
pub fn side_tables(
    alloc: Global,
    t: &TMesh,
    lengths: &[u32],
) -> Result<Vec<[RunStarts; 4]>, AllocError>
    requires layout { IsSomeLayout (layout_of t.now) }
    requires long { length lengths.now ≡ length t.now.arcs.items }
    requires small { (patch : ℕ) (side : Way) → patch < length t.now.patches.items
        → size (gluing_of (layout_of t.now)) (lengths_in lengths.now) patch side < 2 ^ 32 }
    ensures { IfOk result (λ sides. AreSideStarts (layout_of t.now) (lengths_in lengths.now) (tables_of sides.items)) }
{
    let summed = Summed { t, lengths };
    let mut tables = Vec::with_capacity(alloc, t.patches.len())?;
    for patch in 0..t.patches.len() {
        let four = four_starts(alloc, &summed, patch)?;
        tables.push(four)?;
    }
    Ok(tables)
}
