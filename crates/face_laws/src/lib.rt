//! What the laws over half edges say of a manifold list of faces: its fans, its kinds of vertices and its full cuts.

#![tactic(auto)]

ghost use Rattle.def_cut.specs.Laws.{FullCutLaw};

/// A full cut of a list of faces is one of its half edges, and the other way round.
pub fn full_cut_law()
    ensures { FullCutLaw }
{}
