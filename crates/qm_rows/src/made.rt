//! The rows that are too large for a file.

use crate::case::Case;
use def_text::MAX_LINE;
use std::alloc::{AllocError, Global};

/// The faces of a row of the grid, and of a column.
const SIDE: u32 = 317;

/// A flat grid of 317 by 317 faces in its canonical text, which `tidy` gives back.
pub(crate) fn grid_row(alloc: Global) -> Result<Case, AllocError> {
    let mut case = Case::tidy(alloc)?;
    for y in 0..=SIDE {
        for x in 0..=SIDE {
            case.input
                .extend_from_slice(format!(in alloc; "v {x} {y} 0\n")?.as_bytes())?;
        }
    }
    for y in 0..SIDE {
        for x in 0..SIDE {
            let south = y * (SIDE + 1) + x + 1;
            let north = south + SIDE + 1;
            let (south_east, north_east) = (south + 1, north + 1);
            let face = format!(in alloc; "f {south} {south_east} {north_east} {north}\n")?;
            case.input.extend_from_slice(face.as_bytes())?;
        }
    }
    case.out.extend_from_slice(&case.input)?;
    case.status.extend_from_slice(b"0\n")?;
    Ok(case)
}

/// More separate quads than a network may have that is not too tangled.
const QUADS: u32 = 262_145;

/// So many separate quads, whose remesh is refused.
pub(crate) fn tangled_row(alloc: Global) -> Result<Case, AllocError> {
    let mut case = Case::empty(alloc);
    case.words
        .extend_from_slice(b"remesh\n--scale\n1/1\n--floor\n1\n--weight\nplain\n")?;
    for x in 0..QUADS {
        let quad = format!(in alloc;
            "v {x} 0 0\nv {x} 1 0\nv {x} 1 1\nv {x} 0 1\nf -4 -3 -2 -1\n"
        )?;
        case.input.extend_from_slice(quad.as_bytes())?;
    }
    case.status.extend_from_slice(b"9\n")?;
    case.err.extend_from_slice(b"quadq: tangled: 33554560\n")?;
    Ok(case)
}

/// A comment as long as a line may be: the empty mesh.
pub(crate) fn longest_line_row(alloc: Global) -> Result<Case, AllocError> {
    let mut case = Case::tidy(alloc)?;
    case.input = comment(alloc, MAX_LINE)?;
    case.status.extend_from_slice(b"0\n")?;
    Ok(case)
}

/// A comment that is one byte longer.
pub(crate) fn too_long_line_row(alloc: Global) -> Result<Case, AllocError> {
    let mut case = Case::tidy(alloc)?;
    case.input = comment(alloc, MAX_LINE + 1)?;
    case.status.extend_from_slice(b"6\n")?;
    case.err.extend_from_slice(b"quadq: line 1: limit: line\n")?;
    Ok(case)
}

/// A line of so many bytes, and its end.
fn comment(alloc: Global, bytes: usize) -> Result<Vec<u8>, AllocError> {
    let mut line = vec![in alloc; b'#'; bytes]?;
    line.push(b'\n')?;
    Ok(line)
}
