//! The lines of the arcs and patches of a layout.

ghost use Rattle.std.specs.Prelude.{◌≡◌, ◌<◌, ◌++◌, ◌+◌, ℕ, [], length, map, slice_index_or, OnOk};
ghost use Rattle.std.specs.List.{flat_map, range_with_len};
ghost use Rattle.def_layout.specs.declared.tmesh.SideArc.{SideArc as Used};
ghost use Rattle.def_layout.specs.Arcs.{path_at};
ghost use Rattle.def_layout.specs.Layouts.{layout_of};
ghost use Rattle.def_report.specs.GraphText.{arc_line, numbers_line, patch_lines, side_lines, size_line};

use crate::Memory;
use crate::lines::push_line;
use def_io::LINE_FEED;
use def_layout::{SideArc, TMesh};
use qm_print::push_spaced;

/// Puts the lines of all arcs of a layout at the end of a text.
#[tactic(auto, using(crate::proofs::Texts::piece_behind))]
pub(crate) fn push_arcs(text: &mut Vec<u8>, t: &TMesh) -> Result<(), Memory>
    requires first { (arc : ℕ) → arc < length (layout_of t.now).arcs
        → (path_at (layout_of t.now).arcs arc).first < length t.now.nodes.items }
    requires last { (arc : ℕ) → arc < length (layout_of t.now).arcs
        → (path_at (layout_of t.now).arcs arc).last < length t.now.nodes.items }
    ensures { OnOk result (text.new.items ≡
        text.old.items ++ flat_map (arc_line (layout_of t.now)) (range_with_len 0 (length (layout_of t.now).arcs))) }
{
    for a in 0..t.arcs.len() {
        push_arc(text, t, a)?;
    }
    Ok(())
}

/// An arc: its number, the vertices at its ends, and its length.
fn push_arc(text: &mut Vec<u8>, t: &TMesh, a: usize) -> Result<(), Memory>
    requires low { a < length t.now.arcs.items }
    requires first { (path_at (layout_of t.now).arcs a).first < length t.now.nodes.items }
    requires last { (path_at (layout_of t.now).arcs a).last < length t.now.nodes.items }
    ensures { OnOk result (text.new.items ≡ text.old.items ++ arc_line (layout_of t.now) a) }
{
    let arc = &t.arcs[a];
    let first = u64::from(t.nodes[arc.first as usize]) + 1;
    let last = u64::from(t.nodes[arc.last as usize]) + 1;
    push_line(
        text,
        b"arc",
        &[a as u64 + 1, first, last, arc.darts.len() as u64],
    )
}

/// Puts the lines of all patches of a layout and their sides at the end of a text.
pub(crate) fn push_patches(text: &mut Vec<u8>, t: &TMesh) -> Result<(), Memory>
    requires sided { length (layout_of t.now).sides ≡ length (layout_of t.now).patches }
    requires four { (patch : ℕ) → patch < length (layout_of t.now).patches
        → length (slice_index_or (layout_of t.now).sides patch []) ≡ 4 }
    ensures { OnOk result (text.new.items ≡
        text.old.items ++ flat_map (patch_lines (layout_of t.now))
        (range_with_len 0 (length (layout_of t.now).patches))) }
{
    for p in 0..t.patches.len() {
        push_size(text, t, p)?;
        push_sides(text, t, p)?;
    }
    Ok(())
}

/// A patch: its number, its width and its height.
fn push_size(text: &mut Vec<u8>, t: &TMesh, p: usize) -> Result<(), Memory>
    requires { p < length t.now.patches.items }
    ensures { OnOk result (text.new.items ≡ text.old.items ++ size_line (layout_of t.now) p) }
{
    let patch = &t.patches[p];
    push_line(
        text,
        b"patch",
        &[p as u64 + 1, u64::from(patch.w), u64::from(patch.h)],
    )
}

/// The four sides of a patch.
fn push_sides(text: &mut Vec<u8>, t: &TMesh, p: usize) -> Result<(), Memory>
    requires low { p < length t.now.sides.items }
    requires four { length (slice_index_or (layout_of t.now).sides p []) ≡ 4 }
    ensures { OnOk result (text.new.items ≡ text.old.items ++ side_lines (layout_of t.now) p) }
{
    let sides = &t.sides[p];
    push_side(text, b"south", &sides[0].arcs)?;
    push_side(text, b"east", &sides[1].arcs)?;
    push_side(text, b"north", &sides[2].arcs)?;
    push_side(text, b"west", &sides[3].arcs)?;
    Ok(())
}

/// A side: its word, and its arcs in order.
fn push_side(text: &mut Vec<u8>, word: &[u8], arcs: &[SideArc]) -> Result<(), Memory>
    ensures { OnOk result (text.new.items ≡
        text.old.items ++ numbers_line word.now (map (λ (used : Used). used.arc + 1) arcs.now)) }
{
    text.extend_from_slice(word)?;
    for used in arcs {
        push_spaced(text, u64::from(used.arc) + 1)?;
    }
    text.push(LINE_FEED)?;
    Ok(())
}
