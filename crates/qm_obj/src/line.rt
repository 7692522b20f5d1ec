//! What one logical line says.

ghost use Rattle.std.specs.Prelude.{◌≡◌, ◌≤◌, ◌==◌, length, slice_set};
ghost use Rattle.std.specs.List.{list_any};
ghost use Rattle.def_text.specs.Reading.{face_reading, is_letter, is_position_count, reading, vertex_reading};
ghost use Rattle.def_text.specs.Words.{words};
ghost use Rattle.qm_obj.specs.Indices.{with_clamped};
ghost use Rattle.qm_obj.specs.Lines.{line_as, uncommented};

use crate::corner::read_corner;
use crate::position::{Coordinate, read_coordinate, read_position};
use crate::words::next_word;
use def_text::{FACE, MAX_F_LINES, MAX_LINE, MAX_V_LINES, ObjFail, Reading, VERTEX, Which};

/// What a logical line of `size` bytes says after so many `v` and `f` lines. Corners above `u32::MAX` are clamped.
#[tactic(auto, using(crate::proofs::WordLemmas::by_first_word))]
pub(crate) fn read_line(line: u32, vertices: u32, faces: u32, size: usize, text: &[u8]) -> Reading
    requires { length text.now ≤ size }
    ensures { result ≡ with_clamped (reading vertices faces (line_as line size text.now)) }
{
    if size > MAX_LINE {
        return Reading::Refused(ObjFail::Limit {
            which: Which::Line,
            line,
        });
    }
    let (first, rest) = next_word(text);
    if is_one(first, VERTEX) {
        read_vertex(line, vertices, rest)
    } else if is_one(first, FACE) {
        read_face(line, vertices, faces, rest)
    } else {
        Reading::Passed
    }
}

fn is_one(word: &[u8], letter: u8) -> bool
    ensures { result ≡ is_letter letter word.now }
{
    match word {
        [byte] => *byte == letter,
        _ => false,
    }
}

fn read_vertex(line: u32, vertices: u32, text: &[u8]) -> Reading
    ensures { result ≡ vertex_reading line vertices (words (uncommented text.now)) }
{
    if vertices >= MAX_V_LINES {
        return Reading::Refused(ObjFail::Limit {
            which: Which::Vertices,
            line,
        });
    }
    let mut slots = [Coordinate::Far; 3];
    let mut count = 0;
    let mut rest = text;
    'words: loop {
        let (word, after) = next_word(rest);
        if word.is_empty() {
            break;
        }
        let Some(number) = read_coordinate(word) else {
            return Reading::Refused(ObjFail::Syntax { line });
        };
        put(&mut slots, count, number);
        count += 1;
        rest = after;
    }
    if !is_right_count(count) {
        return Reading::Refused(ObjFail::Syntax { line });
    }
    match read_position(&slots) {
        Some(position) => Reading::Position(position),
        None => Reading::Refused(ObjFail::Range { line }),
    }
}

fn is_right_count(count: usize) -> bool
    ensures { result ≡ is_position_count count }
{
    count == 3 || count == 4 || count == 6 || count == 7
}

fn put<T: Copy>(slots: &mut [T], i: usize, value: T)
    ensures { slots.new ≡ slice_set slots.old i value }
{
    if i < slots.len() {
        slots[i] = value;
    }
}

fn read_face(line: u32, vertices: u32, faces: u32, text: &[u8]) -> Reading
    requires { length text.now ≤ MAX_LINE }
    ensures { result ≡ with_clamped (face_reading line vertices faces (words (uncommented text.now))) }
{
    if faces >= MAX_F_LINES {
        return Reading::Refused(ObjFail::Limit {
            which: Which::Faces,
            line,
        });
    }
    let mut corners = [0; 4];
    let mut count = 0;
    let mut rest = text;
    'words: loop {
        let (word, after) = next_word(rest);
        if word.is_empty() {
            break;
        }
        let Some(corner) = read_corner(word, vertices) else {
            return Reading::Refused(ObjFail::Syntax { line });
        };
        put(&mut corners, count, corner);
        count += 1;
        rest = after;
    }
    if count != 4 {
        return Reading::Refused(ObjFail::NotQuad {
            line,
            corners: count as u32,
        });
    }
    if names_none(&corners) {
        return Reading::Refused(ObjFail::Range { line });
    }
    Reading::Face { line, corners }
}

fn names_none(corners: &[u32; 4]) -> bool
    ensures { result ≡ list_any (λ corner. corner == 0) corners.now }
{
    corners.contains(&0)
}
