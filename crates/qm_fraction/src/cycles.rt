//! The edges of pairs, and each second edge of the odd cycles, which leaves a vertex of each free.

ghost use Rattle.std.specs.Prelude.{◌≡◌, ◌<◌, length, OnOk};

use crate::Memory;
use crate::exits::{Dart, dart_at};
use crate::vertices::Vertices;
use std::alloc::Global;

impl Vertices<'_> {
    /// Edges of which no two meet: those of the pairs, and each second one of the odd cycles.
    pub(crate) fn edges(&self, alloc: Global) -> Result<Vec<u32>, Memory> {
        let mut taken = vec![in alloc; false; self.g.n() as usize]?;
        let mut edges = Vec::new(alloc);
        for v in 0..self.g.n() {
            self.follow(v, &mut taken, &mut edges)?;
        }
        Ok(edges)
    }

    /// Takes the edge of a pair, or each second edge of a cycle from a vertex on, as long as both ends are free.
    fn follow(&self, first: u32, taken: &mut [bool], edges: &mut Vec<u32>) -> Result<(), Memory>
        requires first { first < self.now.g.now.graph.n }
        requires taken { length taken.old ≡ self.now.g.now.graph.n }
        ensures { OnOk result (length taken.new ≡ self.now.g.now.graph.n) }
    {
        let mut at = first;
        for _ in 0..self.g.n() {
            let dart = self.all[at as usize].next;
            let Some(Dart { to, .. }) = dart_at(self.g, dart) else {
                return Ok(());
            };
            if taken[at as usize] || taken[to as usize] {
                return Ok(());
            }
            taken[at as usize] = true;
            taken[to as usize] = true;
            edges.push(dart / 2)?;
            let Some(after) = dart_at(self.g, self.all[to as usize].next) else {
                return Ok(());
            };
            at = after.to;
        }
        Ok(())
    }
}
