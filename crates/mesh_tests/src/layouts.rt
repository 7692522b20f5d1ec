//! From the text of a mesh to the mesh, and to the layout that its traced graph cuts.

use def_text::MAX_BYTES;
use qm_cut::traced_layout;
use qm_io::Source;
use qm_obj::read_soup;
use qm_stages::{CutMesh, Meshed, NoMesh};
use std::alloc::{AllocError, Global};

/// The mesh that a source gives, with the layout of its traced graph; none where there is no mesh.
pub(crate) fn read_cut<S: Source>(
    alloc: Global,
    input: &mut S,
) -> Result<Option<CutMesh>, AllocError> {
    match read_mesh(alloc, input)? {
        Some(meshed) => Ok(Some(cut_of(alloc, meshed)?)),
        None => Ok(None),
    }
}

/// The mesh that a source gives, if there is one.
pub(crate) fn read_mesh<S: Source>(
    alloc: Global,
    input: &mut S,
) -> Result<Option<Meshed>, AllocError> {
    let Ok(soup) = read_soup(alloc, input, MAX_BYTES) else {
        return Ok(None);
    };
    match Meshed::new(alloc, soup) {
        Ok(meshed) => Ok(Some(meshed)),
        Err(NoMesh::NotManifold { .. }) => Ok(None),
        Err(NoMesh::Memory) => Err(AllocError),
    }
}

/// The mesh with the layout of its traced graph.
fn cut_of(alloc: Global, meshed: Meshed) -> Result<CutMesh, AllocError> {
    let layout = traced_layout(alloc, meshed.mesh())?;
    Ok(CutMesh::new(meshed, layout))
}
