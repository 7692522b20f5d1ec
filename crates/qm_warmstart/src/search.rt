//! The tables of a search for shortest paths, and its queue.

ghost use Rattle.std.specs.Prelude.{◌≡◌, ℕ, ◌<◌, length, IfOk, IfSome};
ghost use Rattle.std.specs.List.{All};
ghost use Rattle.std.specs.BinaryHeap.{heap_items};
ghost use Rattle.qm_warmstart.specs.Tables.{AreAlong, AreBelow, IsKey};

use crate::Memory;
use crate::cover::Step;
use crate::flow::Flow;
use std::alloc::Global;
use std::cmp::Reverse;
use std::collections::BinaryHeap;

/// The distance of a node that was not reached.
pub(crate) const FAR: u64 = u64::MAX;

/// No step: the first node of a path was reached by none.
pub(crate) const NO_STEP: Step = Step {
    way: 0,
    more: false,
};

/// A flow, with the tables of a search along its steps. All but those of reached nodes are as at the beginning.
#[derive(Drop)]
pub(crate) struct Search<'a> {
    pub(crate) flow: Flow<'a>,
    pub(crate) distance: Vec<u64>,
    pub(crate) by: Vec<Step>,
    pub(crate) done: Vec<bool>,
    /// The reached nodes, once for each step that was nearer than those before.
    reached: Vec<u32>,
    pub(crate) settled: Vec<u32>,
    /// How far the search has come, the reached nodes that are no farther, and the others, the nearest first. Most
    /// steps cost nothing, so few nodes are among the others.
    radius: u64,
    near: Vec<u32>,
    beyond: BinaryHeap<(Reverse<u64>, u32)>,
    ghost far: { length distance.items ≡ flow.cover.now.nodes },
    ghost stepped: { length by.items ≡ flow.cover.now.nodes },
    ghost along: { AreAlong (length flow.cover.now.ways.items) by.items },
    ghost marked: { length done.items ≡ flow.cover.now.nodes },
    ghost nodes: { AreBelow flow.cover.now.nodes reached.items },
    ghost finished: { AreBelow flow.cover.now.nodes settled.items },
    ghost nearer: { AreBelow flow.cover.now.nodes near.items },
    ghost farther: { All (IsKey flow.cover.now.nodes) (heap_items beyond) },
}

/// A search that has not begun.
pub(crate) fn no_search<'a>(alloc: Global, flow: Flow<'a>) -> Result<Search<'a>, Memory>
    ensures { IfOk result (λ search. search.flow ≡ flow.entry) }
{
    let nodes = flow.cover.nodes as usize;
    let distance = vec![in alloc; FAR; nodes]?;
    let by = vec![in alloc; NO_STEP; nodes]?;
    let done = vec![in alloc; false; nodes]?;
    Ok(Search {
        flow,
        distance,
        by,
        done,
        reached: Vec::new(alloc),
        settled: Vec::new(alloc),
        radius: 0,
        near: Vec::new(alloc),
        beyond: BinaryHeap::new(alloc),
    })
}

impl Search<'_> {
    /// Takes a mirrored flow to a finer scale.
    pub(crate) fn refine(&mut self, scale: u32)
        ensures { self.new.flow.cover.now ≡ self.old.flow.cover.now }
    {
        self.flow.refine(scale);
    }

    /// Gives each way of a mirrored flow a length of its own.
    pub(crate) fn unfold(&mut self)
        ensures { self.new.flow.cover.now ≡ self.old.flow.cover.now }
    {
        self.flow.unfold();
    }

    /// Goes so many times along a step.
    pub(crate) fn go(&mut self, step: Step, times: u64)
        requires { step.way < length self.old.flow.cover.now.ways.items }
        ensures { self.new.flow.cover.now ≡ self.old.flow.cover.now }
    {
        self.flow.go(step, times);
    }

    /// Takes so much away at one node and adds it at another, and in a mirrored flow at their mirror images too.
    pub(crate) fn bring(&mut self, from: u32, to: u32, much: i64)
        requires { (from < self.old.flow.cover.now.nodes) × (to < self.old.flow.cover.now.nodes) }
        ensures { self.new.flow.cover.now ≡ self.old.flow.cover.now }
    {
        let cover = self.flow.cover;
        self.flow.bring(from, to, much);
        if self.flow.mirrored {
            self.flow.bring(cover.mirror(to), cover.mirror(from), much);
        }
    }

    /// Takes the nearest of the reached nodes that are not settled.
    pub(crate) fn next(&mut self) -> Option<u32>
        ensures flow { self.new.flow ≡ self.old.flow }
        ensures node { IfSome result (λ node. node < self.old.flow.cover.now.nodes) }
    {
        if self.near.is_empty() {
            return self.next_beyond();
        }
        match self.near.pop() {
            None => None,
            Some(node) => Some(node),
        }
    }

    /// Takes the nearest of the nodes that are farther than the search has come, and comes there.
    fn next_beyond(&mut self) -> Option<u32>
        ensures flow { self.new.flow ≡ self.old.flow }
        ensures node { IfSome result (λ node. node < self.old.flow.cover.now.nodes) }
    {
        match self.beyond.pop() {
            None => None,
            Some((Reverse(distance), node)) => {
                self.radius = distance;
                Some(node)
            }
        }
    }

    /// Notes that no nearer way leads to a node.
    pub(crate) fn settle(&mut self, node: u32) -> Result<(), Memory>
        requires { node < self.old.flow.cover.now.nodes }
        ensures { self.new.flow ≡ self.old.flow }
    {
        self.done[node as usize] = true;
        self.settled.push(node)?;
        Ok(())
    }

    /// Notes a step to a node where it is nearer than those before.
    pub(crate) fn reach(&mut self, node: u32, distance: u64, by: Step) -> Result<(), Memory>
        requires node { node < self.old.flow.cover.now.nodes }
        requires by { by.way < length self.old.flow.cover.now.ways.items }
        ensures { self.new.flow ≡ self.old.flow }
    {
        if distance >= self.distance[node as usize] {
            return Ok(());
        }
        self.distance[node as usize] = distance;
        self.by[node as usize] = by;
        self.reached.push(node)?;
        if distance <= self.radius {
            self.near.push(node)?;
        } else {
            put_beyond(&mut self.beyond, distance, node)?;
        }
        Ok(())
    }

    /// Forgets the search, in the time that it took.
    pub(crate) fn clear(&mut self)
        ensures { self.new.flow ≡ self.old.flow }
    {
        for k in 0..self.reached.len() {
            let node = self.reached[k];
            self.distance[node as usize] = FAR;
            self.done[node as usize] = false;
        }
        self.reached.clear();
        self.settled.clear();
        self.radius = 0;
        self.near.clear();
        self.beyond.clear();
    }
}

/// Puts a node at this distance among those that are farther.
fn put_beyond(
    beyond: &mut BinaryHeap<(Reverse<u64>, u32)>,
    distance: u64,
    node: u32,
) -> Result<(), Memory>
    ensures { (nodes : ℕ) → node < nodes → All (IsKey nodes) (heap_items beyond.old)
        → All (IsKey nodes) (heap_items beyond.new) }
{
    beyond.push((Reverse(distance), node))?;
    Ok(())
}
