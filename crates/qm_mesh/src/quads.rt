//! Few quads over vertices that are used, as the passes over them take them.

ghost use Rattle.qm_mesh.specs.Tables.{AreQuads};

/// Quads over the vertices below a number.
#[derive(Clone, Copy)]
pub(crate) struct Quads<'a> {
    pub(crate) vertices: u32,
    pub(crate) faces: &'a [[u32; 4]],
    pub(crate) ghost are: { AreQuads vertices faces.now },
}
