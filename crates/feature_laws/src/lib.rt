//! The laws of feature lines: the motion that keeps marked edges leaves a full cut that has them all, the conforming
//! cut has them too, and each of their arcs is marked in all its edges or in none.

#![tactic(auto)]

ghost use Rattle.def_feature.specs.Beside.{BesideArcLaw};
ghost use Rattle.def_feature.specs.Conforming.{ConformingLaw, StraightLaw};
ghost use Rattle.def_feature.specs.Laws.{MarkedLaw, MarkedArcLaw};

/// The motion beside marks comes to an end, its graph is a full cut, and that cut has every marked edge.
pub fn marked_law()
    ensures { MarkedLaw }
{}

/// Each arc of that cut is marked in all its edges or in none.
pub fn marked_arc_law()
    ensures { MarkedArcLaw }
{}

/// Each arc of a cut that keeps marked lines is marked in all its edges or in none.
pub fn beside_arc_law()
    ensures { BesideArcLaw }
{}

/// The conforming cut is a full cut that keeps marked lines.
pub fn conforming_law()
    ensures { ConformingLaw }
{}

/// At an inner regular vertex it goes straight on.
pub fn straight_law()
    ensures { StraightLaw }
{}
