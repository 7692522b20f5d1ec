//! Where arcs lie on the sides of blocks.

ghost use Rattle.std.specs.Prelude.{◌≡◌, ◌<◌, ◌*◌, length, IfOk};
ghost use Rattle.def_layout.specs.Gluings.{Way, IsSlot};
ghost use Rattle.def_layout.specs.Layouts.{gluing_of, layout_of, way_number};
ghost use Rattle.def_remesh.specs.NewPoints.{lengths_in};
ghost use Rattle.def_blocks.specs.Links.{side_name};
ghost use Rattle.qm_blocks.specs.Spots.{back_key, key_of, HasSpots, HasUses, HavePut, IsOnBlock, IsOnSide, IsSummed};

use crate::measured::Measured;
use def_blocks::SideName;
use def_layout::SideArc;
use qm_offsets::side_of;
use std::alloc::{AllocError, Global};

/// The place of an arc in use in a table of spots: each arc has two, one for each direction.
fn key_of(used: SideArc) -> usize
    ensures { result ≡ key_of used }
{
    2 * used.arc as usize + if used.forward { 1 } else { 0 }
}

/// The place of the same arc in the other direction.
pub(crate) fn back_key(used: SideArc) -> usize
    ensures { result ≡ back_key used }
{
    2 * used.arc as usize + if used.forward { 0 } else { 1 }
}

/// The name of a side: 0 is south, 1 east, 2 north and 3 west.
pub(crate) fn name_of(side: usize) -> SideName
    ensures { (way : Way) → way_number way ≡ side → result ≡ side_name way }
{
    match side {
        0 => SideName::South,
        1 => SideName::East,
        2 => SideName::North,
        _ => SideName::West,
    }
}

/// The spots of all arcs in use: for each arc and each direction the block, its side and the first point there of the
/// slot that uses the arc so, if there is one. Linear in the arcs.
pub(crate) fn spots_of(
    alloc: Global,
    measured: &Measured,
) -> Result<Vec<Option<(u32, SideName, u64)>>, AllocError>
    ensures { IfOk result (λ table. HasSpots (gluing_of (layout_of measured.now.t.now)) (lengths_in measured.now.x.now)
        (IsSlot (gluing_of (layout_of measured.now.t.now))) table.items) }
{
    let t = measured.t;
    let mut table = vec![in alloc; None; 2 * t.arcs.len()]?;
    for block in 0..t.patches.len() {
        put_block(&mut table, measured, block);
    }
    Ok(table)
}

/// Puts in the spots of a block.
fn put_block(table: &mut [Option<(u32, SideName, u64)>], measured: &Measured, block: usize)
    requires block { block < length measured.now.t.now.patches.items }
    requires long { length table.old ≡ 2 * length measured.now.x.now }
    ensures { HavePut (gluing_of (layout_of measured.now.t.now)) (lengths_in measured.now.x.now) (IsOnBlock block)
        table.old table.new }
{
    put_side(table, measured, block, 0);
    put_side(table, measured, block, 1);
    put_side(table, measured, block, 2);
    put_side(table, measured, block, 3);
}

/// Puts in the spots of a side of a block.
fn put_side(
    table: &mut [Option<(u32, SideName, u64)>],
    measured: &Measured,
    block: usize,
    side: usize,
)
    requires block { block < length measured.now.t.now.patches.items }
    requires side { side < 4 }
    requires long { length table.old ≡ 2 * length measured.now.x.now }
    ensures { (way : Way) → way_number way ≡ side
        → HavePut (gluing_of (layout_of measured.now.t.now)) (lengths_in measured.now.x.now) (IsOnSide block way)
        table.old table.new }
{
    put_uses(
        table,
        side_of(measured.t, block, side),
        measured.x,
        block as u32,
        name_of(side),
    );
}

/// Puts in the spots of the uses of a side.
fn put_uses(
    table: &mut [Option<(u32, SideName, u64)>],
    side: &[SideArc],
    x: &[u64],
    block: u32,
    name: SideName,
)
    requires summed { IsSummed side.now x.now }
    requires long { length table.old ≡ 2 * length x.now }
    ensures { HasUses side.now (lengths_in x.now) block name (length side.now) table.old table.new }
{
    let mut from = 0;
    for used in side {
        table[key_of(*used)] = Some((block, name, from));
        from += x[used.arc as usize];
    }
}
