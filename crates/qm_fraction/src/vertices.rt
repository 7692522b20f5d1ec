//! The vertices on the way to a least fractional matching: their numbers, and what they are matched to.

ghost use Rattle.std.specs.Prelude.{◌≡◌, ◌<◌, length, IfOk};

use crate::Memory;
use crate::exits::{Dart, dart_at, twin};
use qm_dual::SmallGraph;
use std::alloc::Global;

/// No dart, and no vertex.
pub(crate) const NONE: u32 = u32::MAX;

/// No mate, since the vertex lies on an odd cycle of which each edge is taken by a half.
pub(crate) const HALVES: u32 = u32::MAX - 1;

/// The distance of a vertex that was not reached.
pub(crate) const FAR: u64 = u64::MAX;

/// A vertex: its number, how far a search has found it to be, and along which dart; its mate, where it has one, and the
/// dart to the mate, or the dart to the next vertex of its odd cycle.
///
/// No two numbers at an edge are together above twice its cost, and those at an edge that is taken, by a half or whole,
/// are twice its cost.
#[derive(Clone, Copy, Debug, PartialEq, Eq)]
pub(crate) struct Vertex {
    pub(crate) number: i64,
    pub(crate) distance: u64,
    pub(crate) by: u32,
    pub(crate) mate: u32,
    pub(crate) next: u32,
    /// Whether a search goes on from here, along edges that are not taken.
    pub(crate) is_outer: bool,
    /// Whether it lies on a way that is looked at.
    pub(crate) is_marked: bool,
}

/// The vertices of a graph.
#[derive(Debug, Drop)]
pub(crate) struct Vertices<'a> {
    pub(crate) g: &'a SmallGraph<'a>,
    pub(crate) all: Vec<Vertex>,
    pub(crate) ghost each: { length all.items ≡ g.now.graph.n },
}

/// Vertices with these numbers, none of them matched.
pub(crate) fn vertices_of<'a>(
    alloc: Global,
    g: &'a SmallGraph<'a>,
    numbers: &[i64],
) -> Result<Vertices<'a>, Memory>
    requires { length numbers.now ≡ g.now.graph.n }
    ensures { IfOk result (λ vertices. vertices.g.now ≡ g.now) }
{
    let mut all = Vec::with_capacity(alloc, numbers.len())?;
    for number in numbers {
        all.push(Vertex {
            number: *number,
            distance: FAR,
            by: NONE,
            mate: NONE,
            next: NONE,
            is_outer: false,
            is_marked: false,
        })?;
    }
    Ok(Vertices { g, all })
}

impl Vertices<'_> {
    /// Matches the ends of tight edges to each other, where both are free: first of known ones, then of all.
    pub(crate) fn pair_tight(&mut self, known: &[u32])
        ensures { self.new.g ≡ self.old.g }
    {
        for e in known {
            self.pair(*e);
        }
        for e in 0..self.g.edge_count() {
            self.pair(e);
        }
    }

    /// Matches the ends of an edge to each other, where it is tight and both are free.
    fn pair(&mut self, e: u32)
        ensures { self.new.g ≡ self.old.g }
    {
        let dart = e.saturating_mul(2);
        let Some(Dart { from, to, cost }) = dart_at(self.g, dart) else {
            return;
        };
        let (u, v) = (self.all[from as usize], self.all[to as usize]);
        if u.mate != NONE || v.mate != NONE {
            return;
        }
        if u.number.saturating_add(v.number) == cost.saturating_add(cost) {
            self.join(from, to, dart);
        }
    }

    /// Matches the ends of a dart to each other.
    pub(crate) fn join(&mut self, from: u32, to: u32, dart: u32)
        requires { (from < self.old.g.now.graph.n) × (to < self.old.g.now.graph.n) }
        ensures { self.new.g ≡ self.old.g }
    {
        self.all[from as usize].mate = to;
        self.all[from as usize].next = dart;
        self.all[to as usize].mate = from;
        self.all[to as usize].next = twin(dart);
    }

    /// How many vertices are free.
    pub(crate) fn free_count(&self) -> usize {
        self.all.iter().filter(|vertex| vertex.mate == NONE).count()
    }

    /// The number of each vertex.
    pub(crate) fn numbers(&self, alloc: Global) -> Result<Vec<i64>, Memory>
        ensures { IfOk result (λ numbers. length numbers.items ≡ self.now.g.now.graph.n) }
    {
        let mut numbers = Vec::with_capacity(alloc, self.all.len())?;
        for vertex in &self.all {
            numbers.push(vertex.number)?;
        }
        Ok(numbers)
    }
}
