//! What is written reads back, and as nothing else.

ghost use Rattle.def_certtext.specs.Laws.{WrittenLaw};

/// The text of a remesh tells the settings and the certificates that it was made of, and no others.
pub fn written_law()
    ensures { WrittenLaw }
{}
