//! The lines of the points of blocks.

ghost use Rattle.std.specs.Prelude.{◌≡◌, ◌≤◌, ◌<◌, ◌+◌, ◌++◌, ◌∷◌, [], length, None, OnOk, OnErr};
ghost use Rattle.std.specs.List.{flat_map};
ghost use Rattle.arrayvec.specs.ArrayVec.{array_vec_len};
ghost use Rattle.def_text.specs.Canonical.{micro_text};
ghost use Rattle.def_blocks.specs.BlockTexts.{point_line, row_text};
ghost use Rattle.qm_blocktext.specs.Gridded.{height_in, points_in, row_in};

use arrayvec::ArrayVec;
use def_io::LINE_FEED;
use def_output::Stopped;
use def_text::{Micro, SPACE};
use qm_dec::write_micro;
use qm_output::Output;
use qm_place::Near;
use qm_stages::Regridded;

/// Puts the lines of the points of a block, row by row.
pub(crate) fn put_points<T: Output>(
    out: &mut T,
    new: &Regridded,
    block: usize,
) -> Result<(), Stopped>
    requires block { block < length new.now.layout.patches }
    requires even { new.now.shares ≡ None }
    ensures whole { OnOk result (T.takes out.old out.new (points_in new.now block)) }
    ensures part { OnErr result (T.stops out.old out.new (points_in new.now block)) }
{
    let rows = new.rim(block).high + 1;
    let mut near = Near::new();
    for j in 0..rows {
        put_row(out, new, block, j, &mut near)?;
    }
    Ok(())
}

/// Puts the lines of the points of row j of a block, from west to east. What is near changes only how long it takes.
fn put_row<T: Output>(
    out: &mut T,
    new: &Regridded,
    block: usize,
    j: u32,
    near: &mut Near,
) -> Result<(), Stopped>
    requires block { block < length new.now.layout.patches }
    requires row { j ≤ height_in new.now block }
    requires even { new.now.shares ≡ None }
    ensures whole { OnOk result (T.takes out.old out.new (row_text (row_in new.now block j))) }
    ensures part { OnErr result (T.stops out.old out.new (row_text (row_in new.now block j))) }
{
    let points = new.rim(block).wide + 1;
    for i in 0..points {
        let v = new.point(block, i, j);
        put_point(out, &new.place_near(v, near))?;
    }
    Ok(())
}

/// Puts the line of a point.
fn put_point<T: Output>(out: &mut T, position: &[Micro; 3]) -> Result<(), Stopped>
    ensures whole { OnOk result (T.takes out.old out.new (point_line position.now)) }
    ensures part { OnErr result (T.stops out.old out.new (point_line position.now)) }
{
    let row = point_row(position);
    out.put(&row.as_slice()[1..])
}

/// The line of a point behind a space: at most 55 bytes.
type Row = ArrayVec<u8, 64>;

fn point_row(position: &[Micro; 3]) -> Row
    ensures text { result.items ≡ flat_map (λ z. SPACE ∷ micro_text z) position.now ++ LINE_FEED ∷ [] }
    ensures some { 1 ≤ length result.items }
{
    let mut row = Row::new();
    for number in position {
        push_coordinate(&mut row, *number);
    }
    row.push(LINE_FEED);
    row
}

/// Puts a space and a coordinate at the end of a line.
fn push_coordinate(row: &mut Row, number: Micro)
    requires { array_vec_len row.old ≤ 40 }
    ensures text { row.new.items ≡ row.old.items ++ SPACE ∷ micro_text number }
    ensures short { array_vec_len row.new ≤ array_vec_len row.old + 18 }
{
    let mut digits = [0; 24];
    let end = write_micro(&mut digits, number);
    row.push(SPACE);
    row.try_extend_from_slice(&digits[..end]).unwrap();
}
