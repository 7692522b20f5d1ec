//! The laws of chosen cuts: there is one, it is full, and it keeps the lines that it is to keep.

#![tactic(auto)]

ghost use Rattle.def_patches.specs.Laws.{ChosenCutLaw, LineArcLaw, LinesLaw, NoMarksLaw, OneArcLaw, OneCutLaw};

/// There is one chosen cut and only one.
pub fn one_cut_law()
    ensures { OneCutLaw }
{}

/// It is a full cut.
pub fn chosen_cut_law()
    ensures { ChosenCutLaw }
{}

/// It has each marked edge that it keeps, and a corner where marked lines break.
pub fn lines_law()
    ensures { LinesLaw }
{}

/// Each of its arcs is marked in all its edges or in none.
pub fn line_arc_law()
    ensures { LineArcLaw }
{}

/// Beside no marked edge it is the cut without marks.
pub fn no_marks_law()
    ensures { NoMarksLaw }
{}

/// Each side of each patch of a conforming cut is one arc.
pub fn one_arc_law()
    ensures { OneArcLaw }
{}
