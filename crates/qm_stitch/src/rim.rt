//! The keys of the edges that may be doubled. An edge between two inner points of a patch never is: each of its ends
//! has four edges, and these lead to four points of the patch.

ghost use Rattle.std.specs.Prelude.{◌≡◌, ◌<◌, ◌≤◌, ◌-◌, ◌++◌, length, IfOk, OnOk};
ghost use Rattle.def_layout.specs.Lengths.{size};
ghost use Rattle.def_layout.specs.Layouts.{way_number as side_number};
ghost use Rattle.def_written.specs.Edges.{on_arc};
ghost use Rattle.def_written.specs.Numbers.{vertex_number as point_name};
ghost use Rattle.qm_stitch.specs.Lengthened.{gluing_in, lengths_by};
ghost use Rattle.qm_stitch.specs.Rims.{all_lines, along_lines, arcs_upto, key_of, keys_of, line_edge, line_ends};
ghost use Rattle.qm_stitch.specs.Rims.{line_point as spot_on, patches_upto, rim_edges, segments, IsLine};

use crate::numbered::Numbered;
use crate::point::arc_number;
use crate::repeat::key_for;
use crate::size::size_at;
use std::alloc::{AllocError, Global};

/// The keys of all edges that have an end on a side, each once.
pub(crate) fn rim_keys(alloc: Global, numbered: &Numbered) -> Result<Vec<u64>, AllocError>
    ensures { IfOk result (λ keys. keys.items
        ≡ keys_of (gluing_in numbered.now) (lengths_by numbered.now)
        (rim_edges (gluing_in numbered.now) (lengths_by numbered.now))) }
{
    let mut keys = Vec::new(alloc);
    push_arcs(&mut keys, numbered)?;
    push_patches(&mut keys, numbered)?;
    Ok(keys)
}

/// Puts the keys of the edges of all arcs behind the others.
#[tactic(auto, using(crate::proofs::RimEdges::parts_next))]
fn push_arcs(keys: &mut Vec<u64>, numbered: &Numbered) -> Result<(), AllocError>
    ensures { OnOk result (keys.new.items ≡ keys.old.items
        ++ keys_of (gluing_in numbered.now) (lengths_by numbered.now)
        (arcs_upto (lengths_by numbered.now) (length numbered.now.t.now.arcs.items))) }
{
    for arc in 0..numbered.t.arcs.len() {
        push_arc(keys, numbered, arc)?;
    }
    Ok(())
}

/// Puts the keys of the edges of an arc behind the others.
#[tactic(auto, using(crate::proofs::RimEdges::item_next))]
fn push_arc(keys: &mut Vec<u64>, numbered: &Numbered, arc: usize) -> Result<(), AllocError>
    requires arc { arc < length numbered.now.t.now.arcs.items }
    ensures { OnOk result (keys.new.items ≡ keys.old.items
        ++ keys_of (gluing_in numbered.now) (lengths_by numbered.now)
        (segments (lengths_by numbered.now) arc)) }
{
    for k in 0..numbered.tables.lengths[arc] {
        keys.push(arc_key(numbered, arc, k))?;
    }
    Ok(())
}

/// The key of an edge of an arc.
pub(crate) fn arc_key(numbered: &Numbered, arc: usize, k: u32) -> u64
    requires arc { arc < length numbered.now.t.now.arcs.items }
    requires low { k < lengths_by numbered.now arc }
    ensures { result ≡ key_of (gluing_in numbered.now) (lengths_by numbered.now) (on_arc arc k) }
{
    let from = arc_number(numbered, arc, k);
    let to = arc_number(numbered, arc, k + 1);
    key_for(from, to)
}

/// Puts the keys of the edges of all patches that have an end on a side behind the others.
#[tactic(auto, using(crate::proofs::RimEdges::both_next, crate::proofs::RimEdges::parts_next))]
fn push_patches(keys: &mut Vec<u64>, numbered: &Numbered) -> Result<(), AllocError>
    ensures { OnOk result (keys.new.items ≡ keys.old.items
        ++ keys_of (gluing_in numbered.now) (lengths_by numbered.now)
        (patches_upto (gluing_in numbered.now) (lengths_by numbered.now) (length numbered.now.t.now.patches.items))) }
{
    for patch in 0..numbered.t.patches.len() {
        push_lines(keys, numbered, patch, false)?;
        push_lines(keys, numbered, patch, true)?;
    }
    Ok(())
}

/// A row inside a patch, or a column, which is upright.
#[derive(Clone, Copy, Debug, PartialEq, Eq)]
pub struct Line {
    pub(crate) patch: usize,
    pub(crate) upright: bool,
    pub(crate) number: u32,
}

/// Puts the keys of the ends of all rows inside a patch, or of all columns, behind the others.
fn push_lines(
    keys: &mut Vec<u64>,
    numbered: &Numbered,
    patch: usize,
    upright: bool,
) -> Result<(), AllocError>
    requires patch { patch < length numbered.now.t.now.patches.items }
    ensures { OnOk result (keys.new.items ≡ keys.old.items
        ++ keys_of (gluing_in numbered.now) (lengths_by numbered.now)
        (all_lines (gluing_in numbered.now) (lengths_by numbered.now) upright patch)) }
{
    for number in 1..size_at(numbered, patch, side_along(!upright)) {
        let line = Line {
            patch,
            upright,
            number,
        };
        push_line(keys, numbered, line)?;
    }
    Ok(())
}

/// Puts the keys of the first and the last edge of a line behind the others, which may be one edge.
#[tactic(auto, using(crate::proofs::RimEdges::first_alone))]
fn push_line(keys: &mut Vec<u64>, numbered: &Numbered, line: Line) -> Result<(), AllocError>
    requires line { IsLine (gluing_in numbered.now) (lengths_by numbered.now) line }
    ensures { OnOk result (keys.new.items ≡ keys.old.items
        ++ keys_of (gluing_in numbered.now) (lengths_by numbered.now)
        (line_ends line.upright line.patch
        (size (gluing_in numbered.now) (lengths_by numbered.now) line.patch (along_lines line.upright))
        line.number)) }
{
    let long = size_at(numbered, line.patch, side_along(line.upright));
    keys.push(key_at(numbered, line, 0))?;
    if long > 1 {
        keys.push(key_at(numbered, line, long - 1))?;
    }
    Ok(())
}

/// The number of a side along which rows run, or columns.
pub(crate) fn side_along(upright: bool) -> usize
    ensures low { result < 4 }
    ensures side { side_number (along_lines upright) ≡ result }
{
    if upright { 3 } else { 0 }
}

/// The key of an edge of a line, so many edges after its first one.
pub(crate) fn key_at(numbered: &Numbered, line: Line, at: u32) -> u64
    requires line { IsLine (gluing_in numbered.now) (lengths_by numbered.now) line }
    requires low { at < size (gluing_in numbered.now) (lengths_by numbered.now) line.patch
        (along_lines line.upright) }
    ensures { result ≡ key_of (gluing_in numbered.now) (lengths_by numbered.now)
        (line_edge line.upright line.patch line.number at) }
{
    let from = line_point(numbered, line, at);
    let to = line_point(numbered, line, at + 1);
    key_for(from, to)
}

/// The number of a point of a line, so many edges after its beginning.
fn line_point(numbered: &Numbered, line: Line, at: u32) -> u32
    requires line { IsLine (gluing_in numbered.now) (lengths_by numbered.now) line }
    requires upto { at ≤ size (gluing_in numbered.now) (lengths_by numbered.now) line.patch
        (along_lines line.upright) }
    ensures { result ≡ point_name (gluing_in numbered.now) (lengths_by numbered.now)
        (spot_on (gluing_in numbered.now) (lengths_by numbered.now)
        line.upright line.patch line.number at) }
{
    if line.upright {
        numbered.point(line.patch, line.number, at)
    } else {
        numbered.point(line.patch, at, line.number)
    }
}
