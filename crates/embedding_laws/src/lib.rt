//! The layout of a mesh and a full cut lies in the mesh: its cells are the faces, and its arcs are runs of darts.
#![tactic(auto)]

ghost use Rattle.def_written.specs.EmbeddingLaws.{OneLayoutLaw, EmbeddingLaw};

/// What is proved of layouts that lie in a mesh holds for the layout of a mesh and a full cut.
pub fn embedding_law()
    ensures { EmbeddingLaw }
{}

/// A mesh and a full cut have at most one layout.
pub fn one_layout_law()
    ensures { OneLayoutLaw }
{}
