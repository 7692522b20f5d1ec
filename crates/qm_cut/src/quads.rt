//! What the type of a list of faces says.

ghost use Rattle.def_written.specs.Laws.{AreQuads};

/// Faces of four corners are quads.
pub fn are_quads(faces: &[[u32; 4]])
    ensures { AreQuads faces.now }
{}
