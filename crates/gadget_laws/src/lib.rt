//! Laws of the matching graph: lists of lengths and perfect matchings correspond to each other, and the list of an
//! accepted certificate is least.
#![tactic(auto)]

ghost use Rattle.def_flow.specs.Laws.{CostLaw, MatchingGraphLaw, LengthsLaw, MatchingLaw, SizeLaw, SoundnessLaw};

/// The matching graph is a graph: each edge has two different ends among the vertices.
pub fn graph_law()
    ensures { MatchingGraphLaw }
{}

/// The matching graph of an admissible list has at most 9/16 of the tangle number of vertices, and at most 9/8 of
/// it of edges.
pub fn size_law()
    ensures { SizeLaw }
{}

/// No edge of a matching graph costs more than the greatest weight and scale make of a step.
pub fn cost_law()
    ensures { CostLaw }
{}

/// An admissible list in the box of an admissible list has a perfect matching of its matching graph, whose cost is
/// the deviation of the list less that of the least list of the box.
pub fn matching_law()
    ensures { MatchingLaw }
{}

/// A perfect matching of the matching graph has an admissible list in the box, whose deviation less that of the
/// least list of the box is at most the cost of the matching.
pub fn lengths_law()
    ensures { LengthsLaw }
{}

/// The list of an accepted certificate is least among all admissible lists of whole numbers.
pub fn soundness_law()
    ensures { SoundnessLaw }
{}
