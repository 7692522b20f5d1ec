//! The corners of an `l` line, and the vertices that they name.

ghost use Rattle.std.specs.Prelude.{◌≡◌, ◌≤◌, ◌&&◌, ◌-◌, ◌==◌, [], Ok, Some, None, IfOk};
ghost use Rattle.std.specs.Prelude.{drop, if◌then◌else◌, length, map, slice_index_or, true};
ghost use Rattle.std.specs.List.{list_all, list_any, position_or_len};
ghost use Rattle.std.specs.List.Sorted.{IsStrictlyIncreasing};
ghost use Rattle.def_marks.specs.Lines.{corner_index, is_line_corner, is_nothing, named_vertex as vertex_of};
ghost use Rattle.def_text.specs.Corner.{is_optional};
ghost use Rattle.def_text.specs.Digits.{is_signed};
ghost use Rattle.def_text.specs.Words.{words};

use crate::Memory;
use crate::words::first_word;
use def_text::{Index, SLASH};
use qm_obj::read_index;
use qm_scan::{behind_first, find_byte, is_number, unsigned};
use std::alloc::Global;

/// How many `v` lines there are in a text, and before one of its lines.
#[derive(Clone, Copy)]
pub(crate) struct Place {
    pub(crate) all: u32,
    pub(crate) before: u32,
    pub(crate) ghost order: { before ≤ all },
}

/// The numbers that the vertices have in the file.
#[derive(Clone, Copy)]
pub(crate) struct Names<'a> {
    pub(crate) all: &'a [u32],
    pub(crate) ghost rising: { IsStrictlyIncreasing all.now },
    pub(crate) ghost few: { length all.now ≤ 4_294_967_295 },
}

/// Puts the indices of the corners of a line behind none, or answers that some word is no corner.
pub(crate) fn read_corners(
    text: &[u8],
    place: Place,
    indices: &mut Vec<Index>,
) -> Result<bool, Memory>
    requires { indices.old.items ≡ [] }
    ensures corners { IfOk result (λ right.
        right ≡ list_all is_line_corner (words (text.now))) }
    ensures indices { result ≡ Ok true → indices.new.items
        ≡ map (corner_index place.all place.before) (words (text.now)) }
{
    let mut rest = text;
    'words: loop {
        let (word, after) = first_word(rest);
        if word.is_empty() {
            break;
        }
        let Some(index) = read_corner(word, place) else {
            return Ok(false);
        };
        indices.push(index)?;
        rest = after;
    }
    Ok(true)
}

/// The index that a corner uses.
#[tactic(auto, using(crate::proofs::Pieces::corner_found))]
fn read_corner(word: &[u8], place: Place) -> Option<Index>
    ensures { result
        ≡ (if is_line_corner word.now then Some (corner_index place.all place.before word.now) else None) }
{
    let (first, tail) = word.split_at(find_byte(word, SLASH));
    if is_corner(first, tail) {
        Some(read_index(first, place.all, place.before))
    } else {
        None
    }
}

/// Whether a word is a corner that has these parts up to its first slash and from there on.
fn is_corner(first: &[u8], tail: &[u8]) -> bool
    ensures { result ≡ (is_signed first.now && is_optional (drop 1 tail.now)) }
{
    is_number(unsigned(first)) && is_absent_or_index(behind_first(tail))
}

/// Whether a word is empty or an index.
fn is_absent_or_index(word: &[u8]) -> bool
    ensures { result ≡ is_optional word.now }
{
    match word {
        [] => true,
        _ => is_number(unsigned(word)),
    }
}

/// Whether some index names no `v` line.
pub(crate) fn names_nothing(indices: &[Index]) -> bool
    ensures { result ≡ list_any is_nothing indices.now }
{
    for index in indices {
        if is_none(*index) {
            return true;
        }
    }
    false
}

/// Whether an index names no `v` line.
fn is_none(index: Index) -> bool
    ensures { result ≡ is_nothing index }
{
    match index {
        Index::Vertex { .. } => false,
        Index::Out => true,
        Index::Malformed => true,
    }
}

/// The vertices that indices name, by the vertices' numbers in the file.
pub(crate) fn named_vertices(
    names: &Names,
    indices: &[Index],
    chain: &mut Vec<u32>,
) -> Result<(), Memory>
    requires { chain.old.items ≡ [] }
    ensures { IfOk result (λ _. chain.new.items ≡ map (vertex_of names.now.all.now) indices.now) }
{
    for index in indices {
        chain.push(named_vertex(names, *index))?;
    }
    Ok(())
}

/// The vertex that an index names, or the number of vertices where it names none. Logarithmic, and without a search
/// where each vertex before it has a `v` line of its own number.
fn named_vertex(names: &Names, index: Index) -> u32
    ensures { result ≡ vertex_of names.now.all.now index }
{
    match index {
        Index::Vertex { k } => vertex_at(names, k),
        Index::Out => names.all.len() as u32,
        Index::Malformed => names.all.len() as u32,
    }
}

/// The place of a number, or how many there are where it has none.
pub(crate) fn vertex_at(names: &Names, k: u32) -> u32
    ensures { result ≡ position_or_len (λ name. name == k) names.now.all.now }
{
    if is_in_place(names.all, k) {
        return k - 1;
    }
    match names.all.binary_search(&k) {
        Ok(place) => place as u32,
        Err(_) => names.all.len() as u32,
    }
}

/// Whether a number stands at the place that it has where no number is left out.
fn is_in_place(names: &[u32], k: u32) -> bool
    ensures { result ≡ true → (1 ≤ k) × (k ≤ length names.now) × (slice_index_or names.now (k - 1) 0 ≡ k) }
{
    1 <= k && k as usize <= names.len() && names[k as usize - 1] == k
}
