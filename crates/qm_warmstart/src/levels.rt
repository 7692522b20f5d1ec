//! Levels: how many steps that cost nothing lead to a node from one that has too much.

ghost use Rattle.std.specs.Prelude.{◌≡◌, ◌<◌, length, IfOk};
ghost use Rattle.qm_warmstart.specs.Tables.{AreBelow};

use crate::Memory;
use crate::cover::Cover;
use crate::phases::Room;
use std::alloc::Global;

/// The level of a node that no such steps lead to.
pub(crate) const NO_LEVEL: u32 = u32::MAX;

/// The tables of levels. All but those of reached nodes are as at the beginning.
#[derive(Debug, Drop)]
pub(crate) struct Levels {
    pub(crate) level: Vec<u32>,
    /// Whether such steps lead on from a node to one with too little.
    pub(crate) live: Vec<bool>,
    /// The next exit of a node to be looked at.
    pub(crate) next: Vec<u32>,
    /// The nodes with a level in its order, and the live ones.
    pub(crate) reached: Vec<u32>,
    pub(crate) alive: Vec<u32>,
    ghost marked: { length live.items ≡ length level.items },
    ghost looked: { length next.items ≡ length level.items },
    ghost risen: { AreBelow (length level.items) reached.items },
    ghost enlivened: { AreBelow (length level.items) alive.items },
}

/// Levels that have not been found.
pub(crate) fn no_levels(alloc: Global, cover: &Cover) -> Result<Levels, Memory>
    ensures { IfOk result (λ levels. length levels.level.items ≡ cover.now.nodes) }
{
    let nodes = cover.nodes as usize;
    Ok(Levels {
        level: vec![in alloc; NO_LEVEL; nodes]?,
        live: vec![in alloc; false; nodes]?,
        next: vec![in alloc; 0u32; nodes]?,
        reached: Vec::new(alloc),
        alive: Vec::new(alloc),
    })
}

impl Levels {
    /// Forgets levels, in the time that they took.
    fn clear(&mut self)
        ensures { length self.new.level.items ≡ length self.old.level.items }
    {
        for k in 0..self.reached.len() {
            let node = self.reached[k];
            self.level[node as usize] = NO_LEVEL;
            self.live[node as usize] = false;
        }
        self.reached.clear();
        self.alive.clear();
    }

    /// Notes that a node is live.
    fn enliven(&mut self, node: u32) -> Result<(), Memory>
        requires { node < length self.old.level.items }
        ensures { length self.new.level.items ≡ length self.old.level.items }
    {
        if !self.live[node as usize] {
            self.live[node as usize] = true;
            self.alive.push(node)?;
        }
        Ok(())
    }

    /// Goes on to the next exit of a node.
    pub(crate) fn pass(&mut self, node: u32)
        requires { node < length self.old.level.items }
        ensures { length self.new.level.items ≡ length self.old.level.items }
    {
        self.next[node as usize] = self.next[node as usize].saturating_add(1);
    }

    /// Takes its level from a node.
    pub(crate) fn sink(&mut self, node: u32)
        requires { node < length self.old.level.items }
        ensures { length self.new.level.items ≡ length self.old.level.items }
    {
        self.level[node as usize] = NO_LEVEL;
    }
}

impl Room<'_> {
    /// Finds the levels from all sources on that are awake, the live nodes, and whether there are any. The ground of a
    /// mirrored flow is an end and is not opened. Linear in the exits of the nodes that are reached, each of which
    /// takes one of the fuel.
    pub(crate) fn find_levels(&mut self, fuel: &mut u32) -> Result<bool, Memory>
        ensures { self.new.search ≡ self.old.search }
    {
        let cover = self.search.flow.cover;
        self.levels.clear();
        for k in 0..self.awake.len() {
            let source = self.awake[k];
            self.rise_to(source, 0)?;
        }
        for k in 0..cover.nodes as usize {
            if k >= self.levels.reached.len() {
                break;
            }
            let node = self.levels.reached[k];
            if !self.search.flow.mirrored || node != cover.ground() {
                self.level_from(node, fuel)?;
            }
        }
        if !self.levels.alive.is_empty() {
            self.revive(fuel)?;
        }
        Ok(!self.levels.alive.is_empty())
    }

    /// Gives a node its level, unless it has one.
    fn rise_to(&mut self, node: u32, level: u32) -> Result<(), Memory>
        requires { node < self.old.search.flow.cover.now.nodes }
        ensures search { self.new.search ≡ self.old.search }
        ensures awake { self.new.awake ≡ self.old.awake }
    {
        let cover = self.search.flow.cover;
        let levels = &mut self.levels;
        if levels.level[node as usize] == NO_LEVEL {
            levels.level[node as usize] = level;
            levels.next[node as usize] = cover.exits_of(node).0;
            levels.reached.push(node)?;
        }
        Ok(())
    }

    /// Gives the next level to what the exits of a node lead to. The ends are live, and in a mirrored flow the nodes
    /// before the ground.
    fn level_from(&mut self, node: u32, fuel: &mut u32) -> Result<(), Memory>
        requires { node < self.old.search.flow.cover.now.nodes }
        ensures { self.new.search ≡ self.old.search }
    {
        let cover = self.search.flow.cover;
        let level = self.levels.level[node as usize].saturating_add(1);
        let price = self.search.flow.prices[node as usize];
        let (first, end) = cover.exits_of(node);
        for place in first..end {
            *fuel = fuel.saturating_sub(1);
            let to = cover.exit(place).to;
            if self.search.flow.reduced(price, place, to) <= 0 {
                self.rise_to(to, level)?;
                if self.search.flow.excess[to as usize] < 0 {
                    let is_ground = self.search.flow.mirrored && to == cover.ground();
                    self.levels.enliven(if is_ground { node } else { to })?;
                }
            }
        }
        Ok(())
    }

    /// Finds the nodes from which such steps lead to those that are live already: in a mirrored flow by the exits of
    /// their mirror images, and else all that have a level.
    fn revive(&mut self, fuel: &mut u32) -> Result<(), Memory>
        ensures { self.new.search ≡ self.old.search }
    {
        for k in 0..self.search.flow.cover.nodes as usize {
            let mirrored = self.search.flow.mirrored;
            if mirrored && k < self.levels.alive.len() {
                let node = self.levels.alive[k];
                self.revive_before(node, fuel)?;
            } else if !mirrored && k < self.levels.reached.len() {
                let node = self.levels.reached[k];
                self.levels.enliven(node)?;
            } else {
                break;
            }
        }
        Ok(())
    }

    /// The nodes from which such a step leads to a live one are live.
    fn revive_before(&mut self, node: u32, fuel: &mut u32) -> Result<(), Memory>
        requires { node < self.old.search.flow.cover.now.nodes }
        ensures { self.new.search ≡ self.old.search }
    {
        let cover = self.search.flow.cover;
        let image = cover.mirror(node);
        let price = self.search.flow.prices[image as usize];
        let (first, end) = cover.exits_of(image);
        for place in first..end {
            *fuel = fuel.saturating_sub(1);
            let to = cover.exit(place).to;
            let before = cover.mirror(to);
            if self.levels.level[before as usize] != NO_LEVEL
                && to != cover.ground()
                && self.search.flow.reduced(price, place, to) <= 0
            {
                self.levels.enliven(before)?;
            }
        }
        Ok(())
    }
}
