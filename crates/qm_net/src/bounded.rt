//! Networks that are within bounds, and lists of lengths over them, as the calls over them take them.

ghost use Rattle.std.specs.Prelude.{◌≡◌, ◌<◌, ◌≤◌, length, IfSome};
ghost use Rattle.def_flow.specs.Admissible.{AreNetLengths};
ghost use Rattle.def_flow.specs.Network.{arc_at, network, tangle_number, IsWithinBounds};
ghost use Rattle.def_flow.specs.declared.limits.TheConstants.{MAX_TANGLE};

use def_flow::{Arc, MAX_FLOOR, MAX_OLD, MAX_WEIGHT, Net};

/// A network that is within bounds. Contracts see the network, and that it is so.
#[derive(Clone, Copy, Debug)]
pub struct BoundedNet<'a> {
    pub whole: &'a Net,
    pub ghost bounds: { IsWithinBounds (network whole.now) },
}

impl BoundedNet<'_> {
    /// An arc by its number.
    pub fn arc(&self, k: usize) -> &Arc
        requires { k < length self.now.whole.now.arcs.items }
        ensures value { result.now ≡ arc_at self.now.whole.now.arcs.items k }
        ensures weight { (1 ≤ result.now.weight) × (result.now.weight ≤ MAX_WEIGHT) }
        ensures old { result.now.old ≤ MAX_OLD }
        ensures floor { (1 ≤ result.now.floor) × (result.now.floor ≤ MAX_FLOOR) }
        ensures left { result.now.left.node < self.now.whole.now.nodes }
        ensures right { IfSome result.now.right (λ e. e.node < self.now.whole.now.nodes) }
    {
        &self.whole.arcs[k]
    }
}

/// A network within bounds whose tangle number is not too great for matching graphs.
#[derive(Clone, Copy, Debug)]
pub struct LooseNet<'a> {
    pub whole: &'a Net,
    pub ghost bounds: { IsWithinBounds (network whole.now) },
    pub ghost loose: { tangle_number (network whole.now) ≤ MAX_TANGLE },
}

/// A list of lengths over a network: one for each arc, none above 10^12.
#[derive(Clone, Copy, Debug)]
pub struct Lengths<'n, 'x> {
    pub net: BoundedNet<'n>,
    pub x: &'x [u64],
    pub ghost all: { AreNetLengths net.whole.now.arcs.items x.now },
}
