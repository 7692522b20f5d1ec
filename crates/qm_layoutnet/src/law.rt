//! What balance at the nodes of the network of a layout means, also for lengths, and that it has one.

ghost use Rattle.def_layoutnet.specs.LayoutNetLaws.{BalanceLaw, OneNetLaw, OppositeLaw};

/// Whole numbers are balanced at the nodes of the network of a layout exactly where opposite sides have equal sums.
pub fn balance_law()
    ensures { BalanceLaw }
{}

/// Lengths of at least 1 are equal on opposite sides exactly where, as whole numbers, they have equal sums there.
pub fn opposite_law()
    ensures { OppositeLaw }
{}

/// A layout has one network, and so one tangle number.
pub fn one_net_law()
    ensures { OneNetLaw }
{}
