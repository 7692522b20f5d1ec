//! The lines of the canonical text, one at a time and without memory.

ghost use Rattle.std.specs.Prelude.{◌≡◌, ◌≤◌, ◌+◌, ◌++◌, ◌∷◌, decimal};
ghost use Rattle.arrayvec.specs.ArrayVec.{array_vec_len};
ghost use Rattle.def_text.specs.Canonical.{face_text, micro_text, position_text};

use arrayvec::ArrayVec;
use def_io::LINE_FEED;
use def_text::{FACE, Micro, SPACE, VERTEX};
use itoa::Buffer;
use qm_dec::write_micro;

/// A line of the canonical text: at most 56 bytes for a vertex, and 86 for a face.
pub(crate) type Row = ArrayVec<u8, 96>;

/// The line of a vertex.
pub(crate) fn position_row(position: &[Micro; 3]) -> Row
    ensures { result.items ≡ position_text position.now }
{
    let mut row = Row::new();
    row.push(VERTEX);
    for number in position {
        push_micro(&mut row, *number);
    }
    row.push(LINE_FEED);
    row
}

/// The line of a face.
pub(crate) fn face_row(face: &[u32; 4]) -> Row
    ensures { result.items ≡ face_text face.now }
{
    let mut row = Row::new();
    row.push(FACE);
    for vertex in face {
        push_number(&mut row, u64::from(*vertex) + 1);
    }
    row.push(LINE_FEED);
    row
}

/// Puts a space and a number of millionths at the end.
fn push_micro(row: &mut Row, number: Micro)
    requires { array_vec_len row.old ≤ 70 }
    ensures text { row.new.items ≡ row.old.items ++ SPACE ∷ micro_text number }
    ensures short { array_vec_len row.new ≤ array_vec_len row.old + 18 }
{
    let mut digits = [0; 24];
    let end = write_micro(&mut digits, number);
    row.push(SPACE);
    row.try_extend_from_slice(&digits[..end]).unwrap();
}

/// Puts a space and a number at the end.
fn push_number(row: &mut Row, number: u64)
    requires { array_vec_len row.old ≤ 70 }
    ensures text { row.new.items ≡ row.old.items ++ SPACE ∷ decimal number }
    ensures short { array_vec_len row.new ≤ array_vec_len row.old + 21 }
{
    let mut buffer = Buffer::new();
    row.push(SPACE);
    row.try_extend_from_slice(buffer.format(number).as_bytes())
        .unwrap();
}
