//! Two laws of networks: what the difference of two admissible lists contains, and how near a better list is.
#![tactic(auto)]

ghost use Rattle.def_flow.specs.Nearby.{WalkLaw, LiftLaw};

/// The difference of two admissible lists, if it is not zero, contains a balanced change of the same signs,
/// nowhere larger, not zero, and with entries of absolute value at most 2.
pub fn walk_law()
    ensures { WalkLaw }
{}

/// If an admissible list is not least, then some admissible list that differs from it by at most 2 in each entry
/// has a smaller deviation.
pub fn lift_law()
    ensures { LiftLaw }
{}
