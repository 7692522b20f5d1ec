//! The laws of merging: a full cut without a joinable arc is a full cut, and there is one merged cut.

#![tactic(auto)]

ghost use Rattle.def_merge.specs.Beside.{HeldLaw, MergedBesideLaw, SparedLaw};
ghost use Rattle.def_merge.specs.Laws.{FewerLaw, GrownLaw, JoinLaw, JoinableLaw, MergedLaw, OneMergedLaw};

/// Without a joinable arc a full cut is a full cut.
pub fn join_law()
    ensures { JoinLaw }
{}

/// Without a joinable arc there is one patch less.
pub fn fewer_law()
    ensures { FewerLaw }
{}

/// What is joinable without a joinable arc was joinable before, or goes on over one of its ends.
pub fn grown_law()
    ensures { GrownLaw }
{}

/// Merging comes to an end.
pub fn merged_law()
    ensures { MergedLaw }
{}

/// It leaves one cut of a full cut, which is a full cut.
pub fn one_merged_law()
    ensures { OneMergedLaw }
{}

/// What is joinable in a layout is joinable in its cut.
pub fn joinable_law()
    ensures { JoinableLaw }
{}

/// What is merged beside marked lines keeps them.
pub fn merged_beside_law()
    ensures { MergedBesideLaw }
{}

/// An arc that may not leave beside marked lines may not leave later.
pub fn held_law()
    ensures { HeldLaw }
{}

/// Whether an arc may leave beside marked lines is told at its darts and its ends.
pub fn spared_law()
    ensures { SparedLaw }
{}
