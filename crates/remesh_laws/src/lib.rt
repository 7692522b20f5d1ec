//! Laws of finished remeshes: what their texts tell, that they are read again as the new mesh, and that a text is a
//! checked pair in one way.
#![tactic(auto)]

ghost use Rattle.def_remesh.specs.TextLaws.{PairLaw, ReadAgainLaw, ToldLaw};

/// The text of a finished remesh tells its settings and its certificates, and no others.
pub fn told_law()
    ensures { ToldLaw }
{}

/// The lines of a checked pair from its head line on tell these as well, and no others.
pub fn pair_law()
    ensures { PairLaw }
{}

/// The text of a finished remesh is read again as the mesh that it wrote.
pub fn read_again_law()
    ensures { ReadAgainLaw }
{}
