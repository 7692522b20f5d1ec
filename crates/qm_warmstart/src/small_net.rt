//! Networks for which a start is looked for.

ghost use Rattle.std.specs.Prelude.{◌≡◌, ◌*◌, ◌^◌, ◌<◌, ◌≤◌, length, IfSome};
ghost use Rattle.def_flow.specs.Network.{network, IsWithinBounds};

use crate::costs::Cost;
use def_flow::{End, Net};

/// A network that has arcs, and so few of them and of nodes that their ends and copies have numbers.
#[derive(Clone, Copy)]
pub(crate) struct SmallNet<'a> {
    pub(crate) whole: &'a Net,
    ghost bounds: { IsWithinBounds (network whole.now) },
    ghost some: { 1 ≤ length whole.now.arcs.items },
    ghost few_arcs: { length whole.now.arcs.items ≤ 2 ^ 28 },
    ghost few_nodes: { whole.now.nodes ≤ 2 ^ 28 },
}

impl SmallNet<'_> {
    /// How many ends there are: arc `a` has its left end as `2 * a` and its right one, which may lie at no node, as
    /// `2 * a + 1`.
    pub(crate) fn ends(&self) -> u32
        ensures { result ≡ 2 * length self.now.whole.now.arcs.items }
    {
        2 * self.whole.arcs.len() as u32
    }

    /// The end with a number, unless it lies at no node.
    pub(crate) fn end(&self, end: u32) -> Option<End>
        requires { end < 2 * length self.now.whole.now.arcs.items }
        ensures { IfSome result (λ end. end.node < self.now.whole.now.nodes) }
    {
        let arc = &self.whole.arcs[end as usize / 2];
        if end % 2 == 0 {
            Some(arc.left)
        } else {
            arc.right
        }
    }

    /// The least length of the arc of an end.
    pub(crate) fn floor(&self, end: u32) -> u32
        requires { end < 2 * length self.now.whole.now.arcs.items }
    {
        self.whole.arcs[end as usize / 2].floor
    }

    /// The cost of the arc of an end.
    pub(crate) fn cost(&self, end: u32) -> Cost
        requires { end < 2 * length self.now.whole.now.arcs.items }
        ensures { 1 ≤ result.q }
    {
        let arc = &self.whole.arcs[end as usize / 2];
        Cost {
            weight: arc.weight as u16,
            p: self.whole.p as u16,
            q: self.whole.q as u16,
            old: arc.old,
        }
    }
}
