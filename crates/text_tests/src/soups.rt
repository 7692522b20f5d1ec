//! Texts with their soups or refusals, and the canonical text.

use def_text::{ObjFail, Which};
use qm_io::{Lines, MemSource, read_lines};
use qm_obj::{obj_text, read_obj, reads_back};
use std::alloc::Global;
use std::test::Fail;

fn lines_of(alloc: Global, text: &[u8]) -> Result<Lines, Fail> {
    let bytes = Vec::from_slice(alloc, text)?;
    let mut source = MemSource::new(bytes, 7, Vec::new(alloc));
    Ok(read_lines(alloc, &mut source, 1000)?)
}

const SQUARE: &[u8] = b"v 0 0 0\nv 1 0 0\nv 1 1 0\nv 0 1 0\nf 1 2 3 4\n";

#[test]
fn texts_and_their_canonical_texts(rt: HostRuntime) -> Result<(), Fail> {
    reads_back();
    let table: [(&[u8], &[u8]); 6] = [
        (SQUARE, SQUARE),
        (
            b"f 1 2 \\\n3 4\nv 0 0 0\nv 1 0 0\nv 1 1 0\nv 0 1 0\nv 9 9 9\n",
            SQUARE,
        ),
        (
            b"v 0 0 0\r\nv 1 0 0\r\nv 1 1 0\r\nv 0 1 0\r\nf -4/1 -3//2 -2/1/2 -1/\r\n",
            SQUARE,
        ),
        (
            b"# a\nmtllib a.mtl\nv 0 0 0 1\nv 1 0 0 .1 .2 .3\nvn 0 0 1\nv 1 1 0 1 1e999 2 3\nv 0 1 0#\ns 0\n\
              \tf 1/1/1 2/2/1 3/3/1 4/4/1",
            SQUARE,
        ),
        (
            b"v 999999999.9999994 -0 1.5e-7\nv -0.0000005 +.5E1 1.\nv .5 -12.340000 0e999999\n\
              v 0.0000005 1 1\nf 1 2 3 4\n",
            b"v 999999999.999999 0 0\nv -0.000001 5 1\nv 0.5 -12.34 0\nv 0.000001 1 1\nf 1 2 3 4\n",
        ),
        (b"", b""),
    ];
    for (text, wanted) in table {
        let lines = lines_of(rt.alloc(), text)?;
        let count = lines.count();
        let soup = read_obj(rt.alloc(), &lines, 0, count)?;
        let written = obj_text(rt.alloc(), &soup)?;
        assert!(rt; written.as_slice() == wanted);
    }
    Ok(())
}

#[test]
fn refusals_in_order(rt: HostRuntime) -> Result<(), Fail> {
    let table: [(&[u8], ObjFail); 12] = [
        (b"v 1 2 3\nv 1 2\nf 1 2 3", ObjFail::Syntax { line: 2 }),
        (b"v 1 2 3\r\r\n", ObjFail::Syntax { line: 1 }),
        (b"v 1 2 3 4 5", ObjFail::Syntax { line: 1 }),
        (b"v 1e9 0 x", ObjFail::Syntax { line: 1 }),
        (b"v 1 \\\n2 \\\n x\nf 1", ObjFail::Syntax { line: 1 }),
        (b"f 1 2 3 4/1/1/1", ObjFail::Syntax { line: 1 }),
        (
            b"f",
            ObjFail::NotQuad {
                line: 1,
                corners: 0,
            },
        ),
        (
            b"v 0 0 0\nf 1 0 1",
            ObjFail::NotQuad {
                line: 2,
                corners: 3,
            },
        ),
        (b"v 1e9 0 0", ObjFail::Range { line: 1 }),
        (b"v 0 0 0\nf 1 -2 1 1\nv 0 0 0", ObjFail::Range { line: 2 }),
        (b"v 0 0 0\nf 1 1 1 9\nf 1 1 1 0", ObjFail::Range { line: 3 }),
        (
            b"f 1 1 1 99999999999999999999\nv 0 0 0\nf 1 1 1 3",
            ObjFail::Range { line: 1 },
        ),
    ];
    for (text, wanted) in table {
        let lines = lines_of(rt.alloc(), text)?;
        let count = lines.count();
        assert_eq!(rt; read_obj(rt.alloc(), &lines, 0, count).err(), Some(wanted));
    }
    Ok(())
}

#[test]
fn a_line_of_65536_bytes_is_the_longest(rt: HostRuntime) -> Result<(), Fail> {
    let mut text = Vec::from_slice(rt.alloc(), b"#")?;
    for _ in 0..65_535 {
        text.push(b'x')?;
    }
    let mut source = MemSource::new(text.clone()?, 10_000, Vec::new(rt.alloc()));
    let lines = read_lines(rt.alloc(), &mut source, 100_000)?;
    let count = lines.count();
    assert_eq!(rt; read_obj(rt.alloc(), &lines, 0, count).err(), None);
    text.push(b'x')?;
    let mut source = MemSource::new(text, 10_000, Vec::new(rt.alloc()));
    let lines = read_lines(rt.alloc(), &mut source, 100_000)?;
    let count = lines.count();
    let limit = ObjFail::Limit {
        which: Which::Line,
        line: 1,
    };
    assert_eq!(rt; read_obj(rt.alloc(), &lines, 0, count).err(), Some(limit));
    Ok(())
}
