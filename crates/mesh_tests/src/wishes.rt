//! The wishes of `#w` lines.

use def_marks::MarkFail;
use def_text::{MAX_BYTES, MAX_V_LINES};
use qm_io::{MemSource, Source, read_lines};
use qm_marks::read_wishes;
use qm_obj::read_obj;
use qm_stages::Meshed;
use std::alloc::{AllocError, Global};
use std::test::Fail;

/// A quad whose first vertex no face uses, and two quads that share an edge.
const QUAD: &str = "v 9 9 9\nv 0 0 0\nv 1 0 0\nv 1 1 0\nv 0 1 0\nf 2 3 4 5\n";

const PAIR: &str = "v 0 0 0\nv 1 0 0\nv 2 0 0\nv 0 1 0\nv 1 1 0\nv 2 1 0\nf 1 2 5 4\nf 2 3 6 5\n";

/// Meshes with lines, and what these wish for the darts, or how they are refused.
const WISHES: [(&str, &str, &str); 23] = [
    (QUAD, "", "1000 1000 1000 1000"),
    (QUAD, "#w 2 3 5\n#w 4 3 7\n#w 3 2 9\n", "9 7 1000 1000"),
    (QUAD, "#w 2 3 0\n", "0 1000 1000 1000"),
    (QUAD, "#w 5 2 1000000\r\n", "1000 1000 1000 1000000"),
    (QUAD, "# w 2 3 5\n#wide\n#w\n", "1000 1000 1000 1000"),
    (PAIR, "#w 5 2 3\n", "1000 3 1000 1000 1000 1000 1000 3"),
    (QUAD, "#w 2 3\n", "syntax 7"),
    (QUAD, "#w 2 3 5 \n", "syntax 7"),
    (QUAD, "#w 2  3 5\n", "syntax 7"),
    (QUAD, "#w  2 3 5\n", "syntax 7"),
    (QUAD, "#w 2 3 5 7\n", "syntax 7"),
    (QUAD, "#w 02 3 5\n", "syntax 7"),
    (QUAD, "#w 0 3 5\n", "syntax 7"),
    (QUAD, "#w 2 3 05\n", "syntax 7"),
    (QUAD, "#w 2 3 -5\n", "syntax 7"),
    (QUAD, "#w 6 3 5\n", "range 7"),
    (QUAD, "#w 2 99999999999999999999 5\n", "range 7"),
    (QUAD, "#w 2 3 1000001\n", "range 7"),
    (QUAD, "#w 2 3 18446744073709551617\n", "range 7"),
    (QUAD, "#w 2 4 5\n", "no edge 7"),
    (QUAD, "#w 1 2 5\n", "no edge 7"),
    (QUAD, "#w 2 2 5\n", "no edge 7"),
    (QUAD, "#w 2 3 5\n#w 2 4 5\n#w 9 9 9\n", "no edge 8"),
];

#[test]
fn wishes_of_lines(rt: HostRuntime) -> Result<(), Fail> {
    for (mesh, lines, want) in WISHES {
        let mut text = Vec::from_slice(rt.alloc(), mesh.as_bytes())?;
        text.extend_from_slice(lines.as_bytes())?;
        let mut input = MemSource::new(text, 4096, Vec::new(rt.alloc()));
        let found = wishes_text(rt.alloc(), &mut input)?;
        assert_eq!(rt; found.as_deref(), Some(want));
    }
    Ok(())
}

/// The wishes for the darts of a source's mesh, or how its lines are refused; none where there is no mesh.
fn wishes_text<S: Source>(alloc: Global, input: &mut S) -> Result<Option<String>, AllocError> {
    let Ok(lines) = read_lines(alloc, input, MAX_BYTES) else {
        return Ok(None);
    };
    let after = lines.count();
    let Ok(soup) = read_obj(alloc, &lines, 0, after) else {
        return Ok(None);
    };
    let Ok(meshed) = Meshed::new(alloc, soup) else {
        return Ok(None);
    };
    if meshed.soup().names.len() > MAX_V_LINES as usize {
        return Ok(None);
    }
    match read_wishes(alloc, &lines, after, meshed.soup(), meshed.mesh()) {
        Ok(wishes) => Ok(Some(numbers_text(alloc, &wishes)?)),
        Err(MarkFail::Syntax { line }) => Ok(Some(format!(in alloc; "syntax {line}")?)),
        Err(MarkFail::Range { line }) => Ok(Some(format!(in alloc; "range {line}")?)),
        Err(MarkFail::NotEdge { line }) => Ok(Some(format!(in alloc; "no edge {line}")?)),
        Err(MarkFail::Memory) => Err(AllocError),
    }
}

/// Numbers with one blank between each two.
fn numbers_text(alloc: Global, numbers: &[u32]) -> Result<String, AllocError> {
    let mut text = String::new(alloc);
    for (k, number) in numbers.iter().enumerate() {
        if k > 0 {
            text.push_str(" ")?;
        }
        text.push_str(&format!(in alloc; "{number}")?)?;
    }
    Ok(text)
}
