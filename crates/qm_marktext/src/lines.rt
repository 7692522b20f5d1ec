//! The lines of marked arcs.

ghost use Rattle.std.specs.Prelude.{◌≡◌, ◌<◌, ◌≤◌, ◌+◌, ◌-◌, ◌^◌, ◌++◌, ℕ, IfOk, OnOk, length, slice_index};
ghost use Rattle.def_cut.specs.FullCut.{is_on};
ghost use Rattle.def_layout.specs.Layouts.{gluing_of, layout_of};
ghost use Rattle.def_marks.specs.MarkedText.{chain_text, is_marked_arc, marked_text};
ghost use Rattle.def_remesh.specs.NewPoints.{lengths_in};
ghost use Rattle.def_written.specs.Numbers.{vertices};
ghost use Rattle.qm_marktext.specs.Chains.{chain_from};

use crate::Memory;
use def_io::LINE_FEED;
use def_layout::{TArc, TMesh};
use def_marks::LINE;
use qm_print::push_spaced;
use std::alloc::Global;

/// An `l` line for each marked arc of a layout, in order of arcs, over the vertices of the mesh at these lengths.
/// Linear in the arcs and in the lengths of those that are marked.
pub fn marked_lines(alloc: Global, marks: &[bool], t: &TMesh, x: &[u64]) -> Result<Vec<u8>, Memory>
    requires long { length x.now ≡ length t.now.arcs.items }
    requires some { (a : ℕ) → a < length x.now → 0 < lengths_in x.now a }
    requires few { vertices (gluing_of (layout_of t.now)) (lengths_in x.now) < 2 ^ 32 }
    ensures { IfOk result (λ text. text.items ≡ marked_text marks.now (layout_of t.now) (lengths_in x.now)) }
{
    let mut text = Vec::new(alloc);
    let mut before = t.nodes.len() as u64;
    for arc in 0..t.arcs.len() {
        if is_marked(marks, &t.arcs[arc]) {
            push_arc(&mut text, &t.arcs[arc], before, x[arc])?;
        }
        before += x[arc] - 1;
    }
    Ok(text)
}

/// Whether an arc is marked, as its first dart is. In constant time.
pub fn is_marked(marks: &[bool], arc: &TArc) -> bool
    ensures { result ≡ is_on marks.now (slice_index arc.now.darts.items 0) }
{
    is_on(marks, first_of(&arc.darts))
}

/// The first of some darts.
fn first_of(darts: &[u32]) -> u32
    ensures { result ≡ slice_index darts.now 0 }
{
    match darts {
        [] => 0,
        [first, ..] => *first,
    }
}

/// The mark of a dart.
fn is_on(marks: &[bool], d: u32) -> bool
    ensures { result ≡ is_on marks.now d }
{
    (d as usize) < marks.len() && marks[d as usize]
}

/// Puts the line of an arc of this length, whose inner points follow so many vertices, at the end of a text.
fn push_arc(text: &mut Vec<u8>, arc: &TArc, before: u64, length: u64) -> Result<(), Memory>
    requires some { 0 < length }
    requires few { before + length < 2 ^ 33 }
    ensures { OnOk result (text.new.items
        ≡ text.old.items ++ chain_text (chain_from arc.now.first before length arc.now.last)) }
{
    text.push(LINE)?;
    push_spaced(text, u64::from(arc.first) + 1)?;
    for k in 1..length {
        push_spaced(text, before + k)?;
    }
    push_spaced(text, u64::from(arc.last) + 1)?;
    text.push(LINE_FEED)?;
    Ok(())
}
