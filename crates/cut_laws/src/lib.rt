//! The laws of full cuts over half edges: each class of faces is one rectangular grid, in one way.

#![tactic(auto)]

ghost use Rattle.def_cut.specs.Laws.{NoFoldLaw, GridLaw, OneListLaw, CornerLaw};

/// No grid of a full cut is folded onto itself.
pub fn no_fold_law()
    ensures { NoFoldLaw }
{}

/// From each corner grows a grid.
pub fn grid_law()
    ensures { GridLaw }
{}

/// At most one list of patches holds each face once.
pub fn one_list_law()
    ensures { OneListLaw }
{}

/// Each class of faces of a traced cut has a corner.
pub fn corner_law()
    ensures { CornerLaw }
{}
