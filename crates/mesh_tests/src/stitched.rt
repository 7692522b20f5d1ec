//! From the text of a mesh and lengths to the new mesh.

use crate::layouts::read_cut;
use crate::lengths::are_lengths;
use qm_io::Source;
use qm_stitch::{NewMesh, StitchFail, stitch};
use std::alloc::{AllocError, Global};

/// The new mesh that the mesh of a source has at these lengths, or why it has none, with all numbers from 1; none where
/// there is no mesh, or where these are no lengths of its layout.
pub(crate) fn stitched_text<S: Source>(
    alloc: Global,
    input: &mut S,
    lengths: &[u64],
) -> Result<Option<String>, AllocError> {
    let Some(cut) = read_cut(alloc, input)? else {
        return Ok(None);
    };
    if !are_lengths(&cut, lengths) {
        return Ok(None);
    }
    match stitch(alloc, cut.layout(), lengths) {
        Ok(mesh) => Ok(Some(mesh_text(alloc, &mesh)?)),
        Err(StitchFail::TooFine { faces }) => Ok(Some(format!(in alloc; "too fine {faces}\n")?)),
        Err(StitchFail::Doubled { u, v }) => {
            let (u, v) = (u64::from(u) + 1, u64::from(v) + 1);
            Ok(Some(format!(in alloc; "doubled {u} {v}\n")?))
        }
        Err(StitchFail::Memory) => Err(AllocError),
    }
}

/// The numbers of vertices and faces, and the faces.
fn mesh_text(alloc: Global, mesh: &NewMesh) -> Result<String, AllocError> {
    let NewMesh { vertices, faces } = mesh;
    let mut text = format!(in alloc; "vertices {vertices} faces {}\n", faces.len())?;
    for [a, b, c, d] in faces {
        let (a, b, c, d) = (
            u64::from(*a) + 1,
            u64::from(*b) + 1,
            u64::from(*c) + 1,
            u64::from(*d) + 1,
        );
        let line = format!(in alloc; "f {a} {b} {c} {d}\n")?;
        text.push_str(&line)?;
    }
    Ok(text)
}
