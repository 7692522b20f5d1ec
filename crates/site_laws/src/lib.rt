//! The laws of the motion on a mesh: a manifold list of faces is where riders move, and its start darts are sources.

#![tactic(auto)]

ghost use Rattle.def_cut.specs.MotionLaws.{StateLaw, TracedGraphLaw, OrderLaw};

/// The next darts of riders differ and leave vertices where one has stood, and both ends of a covered edge are known.
pub fn state_law()
    ensures { StateLaw }
{}

/// The motion ends, and the traced graph is a full cut.
pub fn graph_law()
    ensures { TracedGraphLaw }
{}

/// Riders of one instant may be moved in any order.
pub fn order_law()
    ensures { OrderLaw }
{}
