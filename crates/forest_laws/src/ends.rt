//! The laws of the sum of weights, by which a search ends.

ghost use Rattle.def_forest.specs.Laws.{BoundLaw, EvenLaw, FewLaw, LargeLaw, OddLaw, RiseLaw};

/// A shift by t raises the sum of the weights by t: the tree has one outer blossom more than inner ones.
pub fn rise_law()
    ensures { RiseLaw }
{}

/// Each blossom holds an odd number of vertices.
pub fn odd_law()
    ensures { OddLaw }
{}

/// Each set holds three vertices at least.
pub fn large_law()
    ensures { LargeLaw }
{}

/// There are fewer than half as many sets as vertices where there is a vertex, and none where there is none.
pub fn few_law()
    ensures { FewLaw }
{}

/// Twice the cost of each perfect matching is at least the sum of the weights.
pub fn bound_law()
    ensures { BoundLaw }
{}

/// The slack between two outer blossoms is even.
pub fn even_law()
    ensures { EvenLaw }
{}
