//! The relaxation: in phases, what is too much flows to where there is too little along steps that cost nothing, and
//! where it can't, prices move.

ghost use Rattle.std.specs.Prelude.{◌≡◌, length, IfOk};
ghost use Rattle.qm_warmstart.specs.Tables.{AreBelow};

use crate::Memory;
use crate::blocking::{Course, no_course};
use crate::flow::Flow;
use crate::levels::{Levels, no_levels};
use crate::scaling::FINER;
use crate::search::Search;
use std::alloc::Global;

/// A search along the steps of a flow, with the tables of the phases.
#[derive(Drop)]
pub(crate) struct Room<'a> {
    pub(crate) search: Search<'a>,
    pub(crate) levels: Levels,
    pub(crate) course: Course,
    /// The nodes that have too much, and those of them of which something may flow at the present prices.
    sources: Vec<u32>,
    pub(crate) awake: Vec<u32>,
    /// Of which nodes no more can be brought away in a mirrored flow, where only whole steps are gone.
    stuck: Vec<bool>,
    ghost level: { length levels.level.items ≡ search.flow.cover.now.nodes },
    ghost on_path: { length course.on_path.items ≡ length search.flow.cover.now.exits.items },
    ghost hit: { length course.hit.items ≡ search.flow.cover.now.nodes },
    ghost begun: { AreBelow search.flow.cover.now.nodes sources.items },
    ghost woken: { AreBelow search.flow.cover.now.nodes awake.items },
    ghost held: { length stuck.items ≡ search.flow.cover.now.nodes },
}

/// Brings what is too much at nodes to where there is too little, at least cost, until each node is balanced or the
/// fuel runs out. First in mirrored form, where both ways of a chain have one length, from scale to scale; what that
/// leaves then.
pub(crate) fn relax<'a>(
    alloc: Global,
    search: Search<'a>,
    fuel: &mut u32,
) -> Result<Search<'a>, Memory>
    ensures { IfOk result (λ relaxed. relaxed.flow.cover.now ≡ search.entry.flow.cover.now) }
{
    let mut room = room_of(alloc, search)?;
    room.relax(fuel)?;
    Ok(room.search)
}

/// The tables of the phases, for a search that has not begun.
fn room_of<'a>(alloc: Global, search: Search<'a>) -> Result<Room<'a>, Memory>
    ensures { IfOk result (λ room. room.search ≡ search.entry) }
{
    let cover = search.flow.cover;
    let levels = no_levels(alloc, cover)?;
    let course = no_course(alloc, cover)?;
    let stuck = vec![in alloc; false; cover.nodes as usize]?;
    Ok(Room {
        search,
        levels,
        course,
        sources: Vec::new(alloc),
        awake: Vec::new(alloc),
        stuck,
    })
}

impl Room<'_> {
    /// From scale to scale, then whole, then with a length of its own for each way.
    fn relax(&mut self, fuel: &mut u32) -> Result<(), Memory>
        ensures { self.new.search.flow.cover.now ≡ self.old.search.flow.cover.now }
    {
        let is_scaled = self.search.flow.scale > 0;
        let mut scale = self.search.flow.scale;
        while scale > 0 {
            self.balance(fuel)?;
            scale = scale.saturating_sub(FINER);
            self.search.refine(scale);
        }
        self.balance(fuel)?;
        self.search.unfold();
        self.balance(fuel)?;
        if is_scaled {
            self.search.center(fuel)?;
        }
        Ok(())
    }

    /// Brings away what is too much, as far as the form and the scale of a flow allow.
    fn balance(&mut self, fuel: &mut u32) -> Result<(), Memory>
        ensures { self.new.search.flow.cover.now ≡ self.old.search.flow.cover.now }
    {
        self.find_sources()?;
        for _ in 0..*fuel {
            if *fuel == 0 || !self.phase(fuel)? {
                break;
            }
        }
        Ok(())
    }

    /// The nodes that have too much at first. None is stuck, and all are awake.
    fn find_sources(&mut self) -> Result<(), Memory>
        ensures { self.new.search ≡ self.old.search }
    {
        self.sources.clear();
        for node in 0..self.search.flow.cover.nodes {
            if self.search.flow.excess[node as usize] > 0 {
                self.sources.push(node)?;
            }
        }
        free(&mut self.stuck);
        self.wake()
    }

    /// One phase: a blocking flow, or new prices where nothing can flow at the present ones. Tells whether there may be
    /// more to do.
    fn phase(&mut self, fuel: &mut u32) -> Result<bool, Memory>
        ensures { self.new.search.flow.cover.now ≡ self.old.search.flow.cover.now }
    {
        *fuel = fuel.saturating_sub(1);
        let search = &self.search;
        keep_open(&search.flow, &self.stuck, &mut self.awake);
        if self.find_levels(fuel)? {
            return self.flow_through(fuel);
        }
        let search = &self.search;
        keep_open(&search.flow, &self.stuck, &mut self.sources);
        self.wake()?;
        self.reprice(fuel)
    }

    /// All sources are awake.
    fn wake(&mut self) -> Result<(), Memory>
        ensures { self.new.search ≡ self.old.search }
    {
        self.awake.clear();
        self.awake.extend_from_slice(&self.sources)?;
        Ok(())
    }

    /// Brings what the levels allow from all sources that are live; the others sleep until prices move. Where nothing
    /// can be brought, those that only a half step would serve are stuck, and there is no more to do if there are none.
    fn flow_through(&mut self, fuel: &mut u32) -> Result<bool, Memory>
        ensures { self.new.search.flow.cover.now ≡ self.old.search.flow.cover.now }
    {
        keep_live(&self.levels, &mut self.awake);
        let mut brought = false;
        for k in 0..self.awake.len() {
            let source = self.awake[k];
            self.course.begin(source);
            if self.flow_on(fuel)? {
                brought = true;
            }
        }
        Ok(brought || self.search.flow.mirrored && self.hold())
    }

    /// Those sources are stuck that have a half too much, or of which a path was found that a chain did not allow.
    /// Tells whether there are any.
    fn hold(&mut self) -> bool
        ensures { self.new.search ≡ self.old.search }
    {
        let mut any = false;
        for k in 0..self.awake.len() {
            let source = self.awake[k] as usize;
            if self.search.flow.excess[source] == 1 || self.course.hit[source] {
                self.stuck[source] = true;
                any = true;
            }
        }
        any
    }
}

/// No node is stuck.
fn free(stuck: &mut [bool])
    ensures { length stuck.new ≡ length stuck.old }
{
    for stuck in stuck {
        *stuck = false;
    }
}

/// Keeps those of some sources that have too much and are not stuck.
fn keep_open(flow: &Flow<'_>, stuck: &[bool], nodes: &mut Vec<u32>)
    requires stuck { length stuck.now ≡ flow.now.cover.now.nodes }
    requires nodes { AreBelow flow.now.cover.now.nodes nodes.old.items }
    ensures { AreBelow flow.now.cover.now.nodes nodes.new.items }
{
    let mut kept = 0;
    for k in 0..nodes.len() {
        let node = nodes[k];
        if flow.excess[node as usize] > 0 && !stuck[node as usize] {
            nodes[kept] = node;
            kept += 1;
        }
    }
    nodes.truncate(kept);
}

/// Keeps the live ones of some sources.
fn keep_live(levels: &Levels, nodes: &mut Vec<u32>)
    requires { AreBelow (length levels.now.level.items) nodes.old.items }
    ensures { AreBelow (length levels.now.level.items) nodes.new.items }
{
    let mut kept = 0;
    for k in 0..nodes.len() {
        let node = nodes[k];
        if levels.live[node as usize] {
            nodes[kept] = node;
            kept += 1;
        }
    }
    nodes.truncate(kept);
}
