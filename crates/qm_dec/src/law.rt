//! The canonical text of a number reads back as the number.

ghost use Rattle.def_text.specs.Laws.{CanonicalLaw};

/// The law of the canonical text of a number: it reads back as the number. It does nothing.
pub fn canonical_law()
    ensures { CanonicalLaw }
{}
