//! The cut of a mesh that is chosen: which lines it keeps, and how its patches come about.

#![tactic(auto)]

/// Which lines a cut keeps: none, or those that the text marks.
#[derive(Clone, Copy, Debug, PartialEq, Eq)]
pub enum Keep {
    Nothing,
    Lines,
}

/// How the patches of a cut come about: by riders that stop each other, merged from these, or by lines that go straight
/// on until the boundary or an irregular vertex.
#[derive(Clone, Copy, Debug, PartialEq, Eq)]
pub enum Patches {
    Traced,
    Merged,
    Conforming,
}
