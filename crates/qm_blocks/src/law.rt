//! What is known of the links of a layout.

ghost use Rattle.def_blocks.specs.Laws.{LinkedPointsLaw, MutualLaw, SymmetricLaw, TwoLinksLaw};

/// An inner arc has two links and an arc of the boundary one.
pub fn two_links_law()
    ensures { TwoLinksLaw }
{}

/// A link leads to one other link, which leads back.
pub fn symmetric_law()
    ensures { SymmetricLaw }
{}

/// A block has a link exactly where the other block has it the other way round.
pub fn mutual_law()
    ensures { MutualLaw }
{}

/// Linked points are one point.
pub fn linked_points_law()
    ensures { LinkedPointsLaw }
{}
