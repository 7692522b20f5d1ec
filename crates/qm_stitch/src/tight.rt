//! The arcs along which doubled edges run.

ghost use Rattle.std.specs.Prelude.{◌≡◌, ◌↔◌, ◌<◌, ◌||◌, ℕ, false, length, slice_index_or, IfOk, IsTrue};
ghost use Rattle.std.specs.List.{All};
ghost use Rattle.def_layout.specs.Gluings.{Way};
ghost use Rattle.def_layout.specs.Layouts.{way_number as side_number};
ghost use Rattle.def_layout.specs.declared.tmesh.SideArc.{SideArc as Used};
ghost use Rattle.def_remesh.specs.Rises.{IsOnSide, IsTightArc};
ghost use Rattle.qm_stitch.specs.Lengthened.{gluing_in, lengths_by};
ghost use Rattle.qm_stitch.specs.Rims.{IsLine};
ghost use Rattle.qm_stitch.specs.Tight.{is_on, AddsMarks, IsDoubledIn, IsDoubledOn};
ghost use Rattle.qm_stitch.specs.Tight.{IsLineDoubled, IsTightAt, IsTightUpto};

use crate::keyed::Keyed;
use crate::numbered::Numbered;
use crate::repeat::is_repeat;
use crate::rim::{Line, arc_key, key_at, side_along};
use crate::size::size_at;
use def_layout::SideArc;
use qm_offsets::side_of;
use std::alloc::{AllocError, Global};

/// Whether each arc is tight: a doubled edge runs along it. n log n in the edges that have an end on a side of a patch.
pub(crate) fn tight_arcs(alloc: Global, keyed: &Keyed) -> Result<Vec<bool>, AllocError>
    ensures long { IfOk result (λ tight. length tight.items ≡ length keyed.now.numbered.t.now.arcs.items) }
    ensures each { IfOk result (λ tight. (arc : ℕ) → arc < length keyed.now.numbered.t.now.arcs.items
        → IsTrue (slice_index_or tight.items arc false)
        ↔ IsTightArc (gluing_in keyed.now.numbered) (lengths_by keyed.now.numbered) arc) }
{
    let mut tight = doubled_arcs(alloc, keyed)?;
    mark_patches(&mut tight, keyed);
    Ok(tight)
}

/// Whether each arc has a doubled edge.
fn doubled_arcs(alloc: Global, keyed: &Keyed) -> Result<Vec<bool>, AllocError>
    ensures long { IfOk result (λ on. length on.items ≡ length keyed.now.numbered.t.now.arcs.items) }
    ensures each { IfOk result (λ on. (arc : ℕ) → arc < length keyed.now.numbered.t.now.arcs.items
        → IsTrue (slice_index_or on.items arc false)
        ↔ IsDoubledOn (gluing_in keyed.now.numbered) (lengths_by keyed.now.numbered) arc) }
{
    let mut on = Vec::new(alloc);
    for arc in 0..keyed.numbered.t.arcs.len() {
        on.push(is_doubled_on(keyed, arc))?;
    }
    Ok(on)
}

/// Whether an arc has a doubled edge.
fn is_doubled_on(keyed: &Keyed, arc: usize) -> bool
    requires arc { arc < length keyed.now.numbered.t.now.arcs.items }
    ensures { IsTrue result ↔ IsDoubledOn (gluing_in keyed.now.numbered) (lengths_by keyed.now.numbered) arc }
{
    for k in 0..keyed.numbered.tables.lengths[arc] {
        if is_repeat(keyed, arc_key(&keyed.numbered, arc, k)) {
            return true;
        }
    }
    false
}

/// Marks the arcs along which doubled edges inside patches run.
fn mark_patches(tight: &mut [bool], keyed: &Keyed)
    requires long { length tight.old ≡ length keyed.now.numbered.t.now.arcs.items }
    ensures { AddsMarks tight.old tight.new (IsTightUpto (gluing_in keyed.now.numbered) (lengths_by keyed.now.numbered)
        (length keyed.now.numbered.t.now.patches.items)) }
{
    for patch in 0..keyed.numbered.t.patches.len() {
        mark_lines(tight, keyed, patch, false);
        mark_lines(tight, keyed, patch, true);
    }
}

/// Marks the arcs on the sides along which the rows of a patch run, where one of them has a doubled edge; or of its
/// columns.
fn mark_lines(tight: &mut [bool], keyed: &Keyed, patch: usize, upright: bool)
    requires patch { patch < length keyed.now.numbered.t.now.patches.items }
    requires long { length tight.old ≡ length keyed.now.numbered.t.now.arcs.items }
    ensures { AddsMarks tight.old tight.new
        (IsTightAt (gluing_in keyed.now.numbered) (lengths_by keyed.now.numbered) upright patch) }
{
    if is_doubled_in(keyed, patch, upright) {
        let side = side_along(upright);
        mark_side(tight, &keyed.numbered, patch, side);
        mark_side(tight, &keyed.numbered, patch, (side + 2) % 4);
    }
}

/// Marks the arcs on a side of a patch.
pub(crate) fn mark_side(tight: &mut [bool], numbered: &Numbered, patch: usize, side: usize)
    requires patch { patch < length numbered.now.t.now.patches.items }
    requires side { side < 4 }
    requires long { length tight.old ≡ length numbered.now.t.now.arcs.items }
    ensures { (way : Way) → side_number way ≡ side
        → AddsMarks tight.old tight.new (IsOnSide (gluing_in numbered.now) patch way) }
{
    mark_uses(tight, side_of(numbered.t, patch, side));
}

/// Marks the arcs in use.
fn mark_uses(tight: &mut [bool], uses: &[SideArc])
    requires { All (λ (used : Used). used.arc < length tight.old) uses.now }
    ensures { (arc : ℕ) → arc < length tight.old → slice_index_or tight.new arc false
        ≡ (slice_index_or tight.old arc false || is_on uses.now arc) }
{
    for used in uses {
        tight[used.arc as usize] = true;
    }
}

/// Whether a row inside a patch has a doubled edge, or a column.
fn is_doubled_in(keyed: &Keyed, patch: usize, upright: bool) -> bool
    requires patch { patch < length keyed.now.numbered.t.now.patches.items }
    ensures { IsTrue result ↔ IsDoubledIn (gluing_in keyed.now.numbered) (lengths_by keyed.now.numbered) upright patch }
{
    for number in 1..size_at(&keyed.numbered, patch, side_along(!upright)) {
        let line = Line {
            patch,
            upright,
            number,
        };
        if is_line_doubled(keyed, line) {
            return true;
        }
    }
    false
}

/// Whether a line has a doubled edge: its first or its last one.
#[tactic(auto, using(crate::proofs::TightEdges::line_some))]
fn is_line_doubled(keyed: &Keyed, line: Line) -> bool
    requires line { IsLine (gluing_in keyed.now.numbered) (lengths_by keyed.now.numbered) line }
    ensures { IsTrue result ↔ IsLineDoubled (gluing_in keyed.now.numbered) (lengths_by keyed.now.numbered)
        line.upright line.patch line.number }
{
    let last = size_at(&keyed.numbered, line.patch, side_along(line.upright)) - 1;
    is_repeat(keyed, key_at(&keyed.numbered, line, 0))
        || is_repeat(keyed, key_at(&keyed.numbered, line, last))
}
