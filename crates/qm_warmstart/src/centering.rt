//! Prices near 0: scales leave them anywhere among those that suit a flow, and a matching that begins with prices far
//! from 0 searches far.

ghost use Rattle.std.specs.Prelude.{◌≡◌, ◌<◌};

use crate::Memory;
use crate::flow::BARRED;
use crate::search::{NO_STEP, Search};

impl Search<'_> {
    /// Gives each node the greatest price up to 0 with which no step costs less than nothing, where that holds of the
    /// prices before. What the copies of a node differ in is then about 0. Each exit that is looked at takes one of the
    /// fuel.
    pub(crate) fn center(&mut self, fuel: &mut u32) -> Result<(), Memory>
        ensures { self.new.flow.cover.now ≡ self.old.flow.cover.now }
    {
        let mut most = 0i64;
        for price in &self.flow.prices {
            most = most.max(*price);
        }
        for node in 0..self.flow.cover.nodes {
            let below = most.abs_diff(self.flow.prices[node as usize]);
            self.reach(node, below, NO_STEP)?;
        }
        self.spread(fuel)?;
        for node in 0..self.flow.cover.nodes as usize {
            let distance = self.distance[node];
            let flow = &mut self.flow;
            let raised = flow.prices[node].saturating_add_unsigned(distance);
            flow.prices[node] = raised.saturating_sub(most);
        }
        self.clear();
        Ok(())
    }

    /// Settles all nodes that can be reached.
    fn spread(&mut self, fuel: &mut u32) -> Result<(), Memory>
        ensures { self.new.flow ≡ self.old.flow }
    {
        for _ in 0..*fuel {
            if *fuel == 0 {
                break;
            }
            let Some(node) = self.next() else {
                break;
            };
            *fuel = fuel.saturating_sub(1);
            if !self.done[node as usize] {
                self.settle(node)?;
                self.spread_from(node, fuel)?;
            }
        }
        Ok(())
    }

    /// Looks along all exits of a settled node.
    fn spread_from(&mut self, node: u32, fuel: &mut u32) -> Result<(), Memory>
        requires { node < self.old.flow.cover.now.nodes }
        ensures { self.new.flow ≡ self.old.flow }
    {
        let cover = self.flow.cover;
        let price = self.flow.prices[node as usize];
        let begun = self.distance[node as usize];
        let (first, end) = cover.exits_of(node);
        for place in first..end {
            *fuel = fuel.saturating_sub(1);
            let to = cover.exit(place).to;
            let reduced = self.flow.reduced(price, place, to);
            if reduced != BARRED {
                let distance = begun.saturating_add(reduced.max(0).unsigned_abs());
                self.reach(to, distance, NO_STEP)?;
            }
        }
        Ok(())
    }
}
