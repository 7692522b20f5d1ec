//! The laws of the steps: each keeps a forest valid.

ghost use Rattle.def_forest.specs.Laws.{ShiftLaw, RootLaw, GrowLaw, EndLaw, ShrinkLaw, ExpandLaw};

/// A shift whose end is feasible keeps a forest valid.
pub fn shift_law()
    ensures { ShiftLaw }
{}

/// Where no tree stands, a blossom that is not matched may become the root.
pub fn root_law()
    ensures { RootLaw }
{}

/// A tree may grow along a tight dart to a matched blossom outside.
pub fn grow_law()
    ensures { GrowLaw }
{}

/// A matching that was changed up to the root is whole: the forest is valid, and no tree stands.
pub fn end_law()
    ensures { EndLaw }
{}

/// A cycle of tight darts in the tree may become one outer blossom.
pub fn shrink_law()
    ensures { ShrinkLaw }
{}

/// An inner set of weight 0 may be opened.
pub fn expand_law()
    ensures { ExpandLaw }
{}
