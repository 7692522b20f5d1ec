//! The laws of darts, twins, fans and chains, and of the half edges of a manifold.

#![tactic(auto)]

ghost use Rattle.def_mesh.specs.HalfEdges.{ManifoldLaw};

/// The half edges of a manifold list obey the laws that the theorems of quad meshes rest on.
pub fn manifold_law()
    ensures { ManifoldLaw }
{}
