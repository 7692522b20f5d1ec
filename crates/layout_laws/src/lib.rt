//! The laws of layouts: straight runs of a cut, the borders of its patches, its nodes and its arcs.

#![tactic(auto)]

ghost use Rattle.def_layout.specs.NodeLaws.{NodesLaw};

/// At a vertex of a full cut that is no node the cut goes straight on.
pub fn nodes_law()
    ensures { NodesLaw }
{}
