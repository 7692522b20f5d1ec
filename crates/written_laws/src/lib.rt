//! The laws of the mesh that a layout gives at new lengths: it is a manifold with the shape of the old mesh.
#![tactic(auto)]

ghost use Rattle.def_written.specs.Laws.{BetweenLaw, EvenSpacingLaw, KeepsShapeLaw, LaidLaw};
ghost use Rattle.def_written.specs.Laws.{MultipleLaw, NewManifoldLaw};
ghost use Rattle.def_written.specs.Laws.{NumbersLaw, SharedLaw, ThreeLaw};

/// A layout that lies in a mesh is that of a surface, with one fan round each node.
pub fn laid_law()
    ensures { LaidLaw }
{}

/// The points of a layout with lengths are numbered without gaps.
pub fn numbers_law()
    ensures { NumbersLaw }
{}

/// Where no edge is doubled, the new faces are a manifold.
pub fn new_manifold_law()
    ensures { NewManifoldLaw }
{}

/// The new mesh keeps Euler's number and the irregular vertices of the old one.
pub fn keeps_shape_law()
    ensures { KeepsShapeLaw }
{}

/// Lengths of at least 3 double no edge.
pub fn three_law()
    ensures { ThreeLaw }
{}

/// Multiples of the old lengths double no edge.
pub fn multiple_law()
    ensures { MultipleLaw }
{}

/// Equal parts of the old lengths are a spacing.
pub fn even_law()
    ensures { EvenSpacingLaw }
{}

/// So are equal parts of shares of the old edges.
pub fn shared_law()
    ensures { SharedLaw }
{}

/// Each coordinate of a new point lies between the least and the greatest of the old ones.
pub fn between_law()
    ensures { BetweenLaw }
{}
