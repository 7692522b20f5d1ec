//! How many patches the chosen cuts of meshes have.

use crate::layouts::read_mesh;
use crate::new_meshes::mesh_text;
use def_patches::Patches;
use qm_cut::chosen_layout;
use qm_io::MemSource;
use std::alloc::{AllocError, Global};
use std::test::Fail;

/// A square of nine faces.
const SQUARE: &str = "\
    f 1 2 6 5\nf 2 3 7 6\nf 3 4 8 7\nf 5 6 10 9\nf 6 7 11 10\nf 7 8 12 11\nf 9 10 14 13\nf 10 11 15 14\n\
    f 11 12 16 15\n";

/// A cube.
const CUBE: &str = "\
    f 1 2 3 4\nf 5 6 7 8\nf 1 4 6 5\nf 2 8 7 3\nf 1 5 8 2\nf 4 3 7 6\n";

/// Two rows of six faces, which share the vertices of their rims.
const TORUS: &str = "\
    f 1 2 3 4\nf 2 5 6 3\nf 5 7 8 6\nf 7 9 10 8\nf 9 11 12 10\nf 11 1 4 12\nf 4 3 5 2\nf 3 6 7 5\n\
    f 6 8 9 7\nf 8 10 11 9\nf 10 12 1 11\nf 12 4 2 1\n";

/// Thirteen faces round irregular vertices.
const IRREGULAR: &str = "\
    f 18 13 19 5\nf 9 18 3 2\nf 11 14 20 15\nf 6 13 12 1\nf 15 20 5 16\nf 20 14 10 3\nf 9 12 13 18\n\
    f 4 17 16 21\nf 11 15 8 7\nf 17 8 15 16\nf 21 16 5 19\nf 22 2 3 10\nf 18 5 20 3\n";

/// How many vertices a mesh has, its faces, and how many patches a cut has.
const COUNTS: [(u32, &str, Patches, usize); 6] = [
    (16, SQUARE, Patches::Traced, 1),
    (16, SQUARE, Patches::Merged, 1),
    (16, SQUARE, Patches::Conforming, 1),
    (8, CUBE, Patches::Merged, 2),
    (12, TORUS, Patches::Traced, 2),
    (22, IRREGULAR, Patches::Conforming, 3),
];

/// How many patches a cut of a mesh with so many vertices and these faces has; none where there is no mesh.
fn patch_count(
    alloc: Global,
    vertices: u32,
    faces: &str,
    patches: Patches,
) -> Result<Option<usize>, AllocError> {
    let text = mesh_text(alloc, vertices, faces)?;
    let mut input = MemSource::new(text, 65_536, Vec::new(alloc));
    let Some(meshed) = read_mesh(alloc, &mut input)? else {
        return Ok(None);
    };
    let layout = chosen_layout(alloc, meshed.mesh(), None, patches)?;
    Ok(Some(layout.patches.len()))
}

#[test]
fn chosen_cuts_have_their_patches(rt: HostRuntime) -> Result<(), Fail> {
    for (vertices, faces, patches, want) in COUNTS {
        let found = patch_count(rt.alloc(), vertices, faces, patches)?;
        assert_eq!(rt; found, Some(want));
    }
    Ok(())
}
