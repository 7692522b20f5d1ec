//! The tables of a search for the nearest end of a way from a free vertex, and its queue.

ghost use Rattle.std.specs.Prelude.{◌≡◌, ◌<◌, IfOk, IfSome};
ghost use Rattle.std.specs.BinaryHeap.{heap_items};
ghost use Rattle.qm_fraction.specs.Known.{AreKnown};

use crate::Memory;
use crate::exits::{Exit, Exits};
use crate::vertices::{FAR, NONE, Vertices};
use std::alloc::Global;
use std::cmp::Reverse;
use std::collections::BinaryHeap;

/// How many exits more a search may look at where it could end with an odd cycle, for an end as near that makes none.
const PATIENCE: u32 = 16_384;

/// How many times all exits the searches together may look at for that.
const TOGETHER: usize = 4;

/// How many exits the searches may look at: some seconds of work.
const FUEL: u32 = 268_435_456;

/// A search. Inner vertices are reached along edges that are not taken, and their mates are outer ones, from which it
/// goes on. How far they are stands beside their numbers.
#[derive(Drop)]
pub(crate) struct Search<'a> {
    pub(crate) vertices: Vertices<'a>,
    pub(crate) exits: Exits,
    /// The vertices that were reached, some of them more than once.
    pub(crate) reached: Vec<u32>,
    /// How far the search has come, the inner vertices that are no farther, and how many of these it has gone on from.
    /// The others wait, the nearest first. Most edges are tight, so few wait.
    pub(crate) radius: u64,
    pub(crate) near: Vec<u32>,
    pub(crate) passed: usize,
    pub(crate) beyond: BinaryHeap<(Reverse<u64>, u32)>,
    /// How near the nearest end so far is, the dart that leads to it, and whether that closes an odd cycle.
    pub(crate) nearest: u64,
    pub(crate) last: u32,
    pub(crate) closes: bool,
    /// How many exits it may still look at for a better end than an odd cycle, and how many all searches may, for that
    /// and in all.
    pub(crate) patience: u32,
    pub(crate) reserve: usize,
    pub(crate) fuel: u32,
    pub(crate) ghost same: { exits.vertices ≡ vertices.g.now.graph.n },
    pub(crate) ghost known: { AreKnown exits.vertices reached.items near.items (heap_items beyond) },
}

/// A search that has not begun.
pub(crate) fn search_in<'a>(alloc: Global, vertices: Vertices<'a>, exits: Exits) -> Search<'a>
    requires { exits.vertices ≡ vertices.g.now.graph.n }
    ensures { result.vertices.g ≡ vertices.entry.g }
{
    let reserve = TOGETHER * exits.all.len();
    Search {
        vertices,
        exits,
        reached: Vec::new(alloc),
        radius: 0,
        near: Vec::new(alloc),
        passed: 0,
        beyond: BinaryHeap::new(alloc),
        nearest: FAR,
        last: NONE,
        closes: false,
        patience: PATIENCE,
        reserve,
        fuel: FUEL,
    }
}

/// The vertices that a search leaves; all else is given back.
pub(crate) fn vertices_after<'a>(search: Search<'a>) -> Vertices<'a>
    ensures { result.g ≡ search.entry.vertices.g }
{
    let Search { vertices, .. } = search;
    vertices
}

impl Search<'_> {
    ghost use Rattle.qm_fraction.specs.Tables.{exit_count};

    /// Whether the search looks no farther: an end is found that no other can be nearer than, and that serves.
    pub(crate) fn is_over(&self) -> bool {
        self.nearest <= self.radius && (!self.closes || self.patience == 0 || self.reserve == 0)
    }

    /// Counts a look for a better end than the one that is found already.
    pub(crate) fn count_look(&mut self)
        ensures graph { self.new.vertices.g ≡ self.old.vertices.g }
        ensures exits { self.new.exits ≡ self.old.exits }
    {
        if self.nearest <= self.radius {
            self.patience = self.patience.saturating_sub(1);
            self.reserve = self.reserve.saturating_sub(1);
        }
    }

    /// Makes a vertex an outer one, as far away as the search has come.
    pub(crate) fn make_outer(&mut self, v: u32) -> Result<(), Memory>
        requires { v < self.old.exits.vertices }
        ensures graph { self.new.vertices.g ≡ self.old.vertices.g }
        ensures exits { self.new.exits ≡ self.old.exits }
    {
        self.reached.push(v)?;
        let vertices = &mut self.vertices;
        vertices.all[v as usize].is_outer = true;
        vertices.all[v as usize].distance = self.radius;
        Ok(())
    }

    /// Notes where an exit of an outer vertex leads, with what its edge still leaves. At another outer vertex it closes
    /// an odd cycle, half of that away; at a free vertex or an odd cycle the way ends; any other vertex becomes an
    /// inner one.
    pub(crate) fn reach(&mut self, exit: Exit, left: u64) -> Result<(), Memory>
        requires { exit.to < self.old.exits.vertices }
        ensures graph { self.new.vertices.g ≡ self.old.vertices.g }
        ensures exits { self.new.exits ≡ self.old.exits }
    {
        let far = self.vertices.all[exit.to as usize];
        let distance = self.radius.saturating_add(left);
        if far.is_outer {
            let half = distance.saturating_add(far.distance) / 2;
            self.end_at(exit.dart, half, true);
            return Ok(());
        }
        if distance >= far.distance || distance > self.nearest {
            return Ok(());
        }
        if far.mate >= self.exits.vertices {
            self.end_at(exit.dart, distance, false);
            return Ok(());
        }
        let vertices = &mut self.vertices;
        vertices.all[exit.to as usize].distance = distance;
        vertices.all[exit.to as usize].by = exit.dart;
        self.reached.push(exit.to)?;
        if distance <= self.radius {
            self.near.push(exit.to)?;
        } else {
            self.beyond.push((Reverse(distance), exit.to))?;
        }
        Ok(())
    }

    /// Notes an end, where it is nearer than those before, or as near and makes no odd cycle.
    fn end_at(&mut self, last: u32, distance: u64, closes: bool)
        ensures graph { self.new.vertices.g ≡ self.old.vertices.g }
        ensures exits { self.new.exits ≡ self.old.exits }
    {
        let is_better = self.closes && !closes && distance == self.nearest;
        if distance < self.nearest || is_better {
            self.nearest = distance;
            self.last = last;
            self.closes = closes;
        }
    }

    /// Takes the nearest of the inner vertices from which the search has not gone on, and comes there; none where an
    /// end is as near. It may be one that came up before, nearer.
    pub(crate) fn next(&mut self) -> Result<Option<u32>, Memory>
        ensures graph { self.new.vertices.g ≡ self.old.vertices.g }
        ensures exits { self.new.exits ≡ self.old.exits }
        ensures vertex { IfOk result (λ next. IfSome next (λ v. v < self.old.exits.vertices)) }
    {
        if self.is_over() {
            return Ok(None);
        }
        if self.passed < self.near.len() {
            self.passed += 1;
            return Ok(Some(self.near[self.passed - 1]));
        }
        self.next_beyond()
    }

    /// Takes the nearest of the vertices that are farther than the search has come, unless an end is as near.
    fn next_beyond(&mut self) -> Result<Option<u32>, Memory>
        ensures graph { self.new.vertices.g ≡ self.old.vertices.g }
        ensures exits { self.new.exits ≡ self.old.exits }
        ensures vertex { IfOk result (λ next. IfSome next (λ v. v < self.old.exits.vertices)) }
    {
        let Some((distance, v)) = self.pop() else {
            return Ok(None);
        };
        if distance >= self.nearest {
            return Ok(None);
        }
        self.radius = distance;
        // What was found nearer since it began to wait stands among the near ones already, or is an outer one.
        if self.vertices.all[v as usize].distance == distance {
            self.near.push(v)?;
            self.passed = self.near.len();
        }
        Ok(Some(v))
    }

    /// Takes the nearest of the waiting vertices, with its distance when it was put there.
    fn pop(&mut self) -> Option<(u64, u32)>
        ensures graph { self.new.vertices.g ≡ self.old.vertices.g }
        ensures exits { self.new.exits ≡ self.old.exits }
        ensures vertex { IfSome result (λ found. found.1 < self.old.exits.vertices) }
    {
        match self.beyond.pop() {
            None => None,
            Some((Reverse(distance), v)) => Some((distance, v)),
        }
    }

    /// Forgets a search, in the time that it took.
    pub(crate) fn clear(&mut self)
        ensures graph { self.new.vertices.g ≡ self.old.vertices.g }
        ensures exits { self.new.exits ≡ self.old.exits }
    {
        for k in 0..self.reached.len() {
            let v = self.reached[k];
            let vertices = &mut self.vertices;
            vertices.all[v as usize].distance = FAR;
            vertices.all[v as usize].is_outer = false;
        }
        self.reached.clear();
        self.radius = 0;
        self.near.clear();
        self.passed = 0;
        self.beyond.clear();
        self.nearest = FAR;
        self.closes = false;
        self.patience = PATIENCE;
    }
}
