//! New prices, at which some path from a source to an end costs nothing.

ghost use Rattle.std.specs.Prelude.{◌≡◌, ◌<◌};

use crate::Memory;
use crate::flow::BARRED;
use crate::phases::Room;
use crate::search::{FAR, NO_STEP, Search};

impl Room<'_> {
    /// Lowers the prices of the nodes that are nearer to the sources that are awake than the nearest end, so that no
    /// step costs less than nothing and a path to that end costs nothing; or tells that there is no end. In a mirrored
    /// flow the prices of the mirror images rise as much. Each exit that is looked at takes one of the fuel.
    pub(crate) fn reprice(&mut self, fuel: &mut u32) -> Result<bool, Memory>
        ensures { self.new.search.flow.cover.now ≡ self.old.search.flow.cover.now }
    {
        for k in 0..self.awake.len() {
            let source = self.awake[k];
            self.search.reach(source, 0, NO_STEP)?;
        }
        let twice = self.search.nearest_end(fuel)?;
        if twice < FAR {
            self.search.lower(twice - twice / 2);
        }
        self.search.clear();
        Ok(twice < FAR)
    }
}

impl Search<'_> {
    /// Twice the distance of the nearest end.
    ///
    /// A path from a source to the mirror image of a source is met in the middle: where a step leads to a node whose
    /// mirror image was reached, it goes on as the mirror image of the path to that one. So half the way is searched.
    fn nearest_end(&mut self, fuel: &mut u32) -> Result<u64, Memory>
        ensures { self.new.flow ≡ self.old.flow }
    {
        let cover = self.flow.cover;
        let mut twice = FAR;
        for _ in 0..*fuel {
            let Some(node) = self.next() else {
                break;
            };
            if self.done[node as usize] {
                continue;
            }
            if *fuel == 0 || self.distance[node as usize].saturating_mul(2) >= twice {
                break;
            }
            self.settle(node)?;
            twice = self.look_from(node, twice)?;
            let (first, end) = cover.exits_of(node);
            *fuel = fuel.saturating_sub(end.saturating_sub(first).max(1));
        }
        Ok(twice)
    }

    /// Looks along all exits of a settled node, for ends that are nearer than the nearest so far.
    fn look_from(&mut self, node: u32, nearest: u64) -> Result<u64, Memory>
        requires { node < self.old.flow.cover.now.nodes }
        ensures { self.new.flow ≡ self.old.flow }
    {
        let cover = self.flow.cover;
        let mut twice = nearest;
        let price = self.flow.prices[node as usize];
        let begun = self.distance[node as usize];
        let (first, end) = cover.exits_of(node);
        for place in first..end {
            let to = cover.exit(place).to;
            let reduced = self.flow.reduced(price, place, to);
            if reduced == BARRED {
                continue;
            }
            let distance = begun.saturating_add(reduced.max(0).unsigned_abs());
            twice = twice.min(self.met_at(to, distance));
            let is_closed = self.flow.mirrored && to == cover.ground();
            if !is_closed && distance.saturating_mul(2) < twice {
                self.reach(to, distance, NO_STEP)?;
            }
        }
        Ok(twice)
    }

    /// Twice the distance of an end, if a node at this distance is one or, in a mirrored flow, is met by the search.
    fn met_at(&self, node: u32, distance: u64) -> u64
        requires { node < self.now.flow.cover.now.nodes }
    {
        let cover = self.flow.cover;
        if self.flow.mirrored && node != cover.ground() {
            distance.saturating_add(self.distance[cover.mirror(node) as usize])
        } else if self.flow.excess[node as usize] < 0 {
            distance.saturating_mul(2)
        } else {
            FAR
        }
    }

    /// Lowers the prices of the settled nodes by as much as they are nearer than this.
    fn lower(&mut self, radius: u64)
        ensures { self.new.flow.cover.now ≡ self.old.flow.cover.now }
    {
        let cover = self.flow.cover;
        for k in 0..self.settled.len() {
            let node = self.settled[k];
            let nearer = radius.saturating_sub(self.distance[node as usize]);
            let flow = &mut self.flow;
            let price = flow.prices[node as usize];
            flow.prices[node as usize] = price.saturating_sub_unsigned(nearer);
            if flow.mirrored {
                let image = cover.mirror(node) as usize;
                flow.prices[image] = flow.prices[image].saturating_add_unsigned(nearer);
            }
        }
    }
}
