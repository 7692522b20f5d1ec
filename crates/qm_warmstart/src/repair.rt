//! What rounding leaves unbalanced is brought along shortest paths to where it helps, on both ways of each chain.

ghost use Rattle.std.specs.Prelude.{◌≡◌, ◌<◌, length, IfOk, IfSome};

use crate::Memory;
use crate::cover::Step;
use crate::flow::BARRED;
use crate::search::{NO_STEP, Search};

/// The ends of a path.
#[derive(Clone, Copy, Debug, PartialEq, Eq)]
struct Path {
    from: u32,
    to: u32,
}

impl Search<'_> {
    /// Gives both ways of each chain its length, and balances the nodes, at little cost; or gives up where the fuel
    /// runs out.
    pub(crate) fn repair(&mut self, lengths: &[u64], fuel: &mut u32) -> Result<Option<()>, Memory>
        requires { length self.old.flow.cover.now.slopes.items ≡ length lengths.now }
        ensures { self.new.flow.cover.now ≡ self.old.flow.cover.now }
    {
        self.flow.share(lengths);
        for from in 0..self.flow.cover.ground() {
            if self.drain(from, fuel)?.is_none() {
                return Ok(None);
            }
        }
        Ok(Some(()))
    }

    /// Brings away what is too much at a node, one by one.
    fn drain(&mut self, from: u32, fuel: &mut u32) -> Result<Option<()>, Memory>
        requires { from < self.old.flow.cover.now.nodes }
        ensures { self.new.flow.cover.now ≡ self.old.flow.cover.now }
    {
        for _ in 0..*fuel {
            if self.flow.excess[from as usize] <= 0 {
                return Ok(Some(()));
            }
            let Some(to) = self.find(from, fuel)? else {
                return Ok(None);
            };
            self.go_along(Path { from, to });
            self.clear();
        }
        Ok(None)
    }

    /// The nearest node with too little, unless there is none or the fuel runs out. Each exit that is looked at takes
    /// one of it.
    fn find(&mut self, from: u32, fuel: &mut u32) -> Result<Option<u32>, Memory>
        requires { from < self.old.flow.cover.now.nodes }
        ensures flow { self.new.flow ≡ self.old.flow }
        ensures end { IfOk result (λ found. IfSome found (λ end. end < self.old.flow.cover.now.nodes)) }
    {
        // One alone cannot go to the node's own mirror image: both would turn over.
        let is_alone = self.flow.excess[from as usize] == 1;
        let image = self.flow.cover.mirror(from);
        self.reach(from, 0, NO_STEP)?;
        for _ in 0..*fuel {
            let Some(node) = self.next() else {
                return Ok(None);
            };
            if self.done[node as usize] {
                continue;
            }
            if self.flow.excess[node as usize] < 0 && !(is_alone && node == image) {
                return Ok(Some(node));
            }
            if *fuel == 0 {
                return Ok(None);
            }
            *fuel = fuel.saturating_sub(1);
            self.settle(node)?;
            self.step_from(Path { from, to: node }, fuel)?;
        }
        Ok(None)
    }

    /// Looks along all exits of a settled node, to which a path leads.
    fn step_from(&mut self, path: Path, fuel: &mut u32) -> Result<(), Memory>
        requires { path.to < self.old.flow.cover.now.nodes }
        ensures { self.new.flow ≡ self.old.flow }
    {
        let cover = self.flow.cover;
        let price = self.flow.prices[path.to as usize];
        let begun = self.distance[path.to as usize];
        let (first, end) = cover.exits_of(path.to);
        for place in first..end {
            *fuel = fuel.saturating_sub(1);
            let exit = cover.exit(place);
            let reduced = self.flow.reduced(price, place, exit.to);
            if reduced == BARRED {
                continue;
            }
            if self.flow.is_last(exit.step) && self.is_behind(path, exit.step, fuel) {
                continue;
            }
            let distance = begun.saturating_add(reduced.max(0).unsigned_abs());
            self.reach(exit.to, distance, exit.step)?;
        }
        Ok(())
    }

    /// Whether the path to a node has gone the same step along the other way of its chain. Each step back along the
    /// path takes one of the fuel.
    fn is_behind(&self, path: Path, step: Step, fuel: &mut u32) -> bool
        requires path { path.to < self.now.flow.cover.now.nodes }
        requires way { step.way < length self.now.flow.cover.now.ways.items }
    {
        let cover = self.flow.cover;
        let mut node = path.to;
        for _ in 0..*fuel {
            if node == path.from {
                return false;
            }
            *fuel = fuel.saturating_sub(1);
            let behind = self.by[node as usize];
            if behind.way == cover.other(step.way) && behind.more == step.more {
                return true;
            }
            node = cover.origin(behind);
        }
        true
    }

    /// Goes along a path of the search, and along its mirror image, on the other ways of its chains.
    fn go_along(&mut self, path: Path)
        requires { (path.from < self.old.flow.cover.now.nodes) × (path.to < self.old.flow.cover.now.nodes) }
        ensures { self.new.flow.cover.now ≡ self.old.flow.cover.now }
    {
        let cover = self.flow.cover;
        let mut node = path.to;
        for _ in 0..cover.nodes {
            if node == path.from {
                break;
            }
            let step = self.by[node as usize];
            let image = Step {
                way: cover.other(step.way),
                more: step.more,
            };
            self.flow.go(step, 1);
            self.flow.go(image, 1);
            node = cover.origin(step);
        }
        self.flow.bring(path.from, path.to, 1);
        self.flow
            .bring(cover.mirror(path.to), cover.mirror(path.from), 1);
    }
}
