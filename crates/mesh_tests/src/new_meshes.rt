//! New meshes at worked lengths: where an edge is doubled, and where a mesh is as fine as may be.

use crate::stitched::stitched_text;
use qm_io::MemSource;
use std::alloc::{AllocError, Global};
use std::test::Fail;

/// A cylinder of three rows of six faces, and on half of its rim three rows of three.
pub(crate) const CYLINDER: &str = "\
    f 1 2 8 7\nf 2 3 9 8\nf 3 4 10 9\nf 4 5 11 10\nf 5 6 12 11\nf 6 1 7 12\nf 7 8 14 13\nf 8 9 15 14\nf 9 10 16 15\n\
    f 10 11 17 16\nf 11 12 18 17\nf 12 7 13 18\nf 13 14 20 19\nf 14 15 21 20\nf 15 16 22 21\nf 16 17 23 22\n\
    f 17 18 24 23\nf 18 13 19 24\nf 19 20 26 25\nf 20 21 27 26\nf 21 22 28 27\nf 25 26 30 29\nf 26 27 31 30\n\
    f 27 28 32 31\nf 29 30 34 33\nf 30 31 35 34\nf 31 32 36 35\n";

/// A torus of four rows of four faces.
pub(crate) const TORUS: &str = "\
    f 1 2 6 5\nf 2 3 7 6\nf 3 4 8 7\nf 4 1 5 8\nf 5 6 10 9\nf 6 7 11 10\nf 7 8 12 11\nf 8 5 9 12\nf 9 10 14 13\n\
    f 10 11 15 14\nf 11 12 16 15\nf 12 9 13 16\nf 13 14 2 1\nf 14 15 3 2\nf 15 16 4 3\nf 16 13 1 4\n";

/// Two sheets of three rows of three faces, joined along their rims.
pub(crate) const PILLOW: &str = "\
    f 1 2 6 5\nf 2 3 7 6\nf 3 4 8 7\nf 5 6 10 9\nf 6 7 11 10\nf 7 8 12 11\nf 9 10 14 13\nf 10 11 15 14\n\
    f 11 12 16 15\nf 1 5 17 2\nf 2 17 18 3\nf 3 18 8 4\nf 5 9 19 17\nf 17 19 20 18\nf 18 20 12 8\nf 9 13 14 19\n\
    f 19 14 15 20\nf 20 15 16 12\n";

/// One face.
const QUAD: &str = "f 1 2 3 4\n";

/// The text of a mesh with so many vertices and these faces.
pub(crate) fn mesh_text(alloc: Global, vertices: u32, faces: &str) -> Result<Vec<u8>, AllocError> {
    let mut text = Vec::new(alloc);
    for _ in 0..vertices {
        text.extend_from_slice(b"v 0 0 0\n")?;
    }
    text.extend_from_slice(faces.as_bytes())?;
    Ok(text)
}

/// How many vertices a mesh has, its faces and lengths, and how the text of the new mesh begins.
const NEW_MESHES: [(u32, &str, &[u64], &str); 16] = [
    (36, CYLINDER, &[1, 1, 1, 1, 1, 1, 1, 1, 1], "doubled 1 2\n"),
    (
        36,
        CYLINDER,
        &[3, 3, 3, 3, 3, 3, 3, 3, 3],
        "vertices 36 faces 27\nf 1 7 25 10\n",
    ),
    (16, TORUS, &[1, 1], "doubled 1 1\n"),
    (16, TORUS, &[1, 2], "doubled 1 1\n"),
    (16, TORUS, &[2, 2], "doubled 1 2\n"),
    (16, TORUS, &[3, 2], "doubled 1 4\n"),
    (16, TORUS, &[3, 3], "vertices 9 faces 9\nf 1 2 6 5\n"),
    (16, TORUS, &[4, 4], "vertices 16 faces 16\n"),
    (
        20,
        PILLOW,
        &[1, 1, 1, 1],
        "vertices 4 faces 2\nf 1 2 4 3\nf 1 3 4 2\n",
    ),
    (20, PILLOW, &[2, 1, 1, 2], "doubled 5 6\n"),
    (20, PILLOW, &[1, 2, 2, 1], "doubled 5 6\n"),
    (20, PILLOW, &[2, 2, 2, 2], "vertices 10 faces 8\n"),
    (4, QUAD, &[1, 1, 1, 1], "vertices 4 faces 1\nf 1 2 3 4\n"),
    (4, QUAD, &[2000, 2000, 2000, 2000], "too fine 4000000\n"),
    (
        4,
        QUAD,
        &[1_000_000_000_000, 1, 1_000_000_000_000, 1],
        "too fine 1000000000000\n",
    ),
    (4, QUAD, &[2, 1, 2, 1], "vertices 6 faces 2\n"),
];

#[test]
fn new_meshes_at_given_lengths(rt: HostRuntime) -> Result<(), Fail> {
    for (vertices, faces, lengths, want) in NEW_MESHES {
        let text = mesh_text(rt.alloc(), vertices, faces)?;
        let mut input = MemSource::new(text, 65_536, Vec::new(rt.alloc()));
        let Some(found) = stitched_text(rt.alloc(), &mut input, lengths)? else {
            panic!(rt; "no mesh with the lengths {lengths:?}");
        };
        assert!(rt; found.starts_with(want), "at {lengths:?}: {found}");
    }
    Ok(())
}
