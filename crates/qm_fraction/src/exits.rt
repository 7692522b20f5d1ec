//! The darts that leave each vertex, side by side.

ghost use Rattle.std.specs.Prelude.{◌≡◌, ◌+◌, ◌*◌, ◌^◌, ◌<◌, ◌≤◌, length, IfOk, IfSome};
ghost use Rattle.std.specs.List.{All};
ghost use Rattle.qm_fraction.specs.Exits.{AreExits, IsDartWithin, IsExitWithin};

use crate::Memory;
use def_matching::WEdge;
use qm_dual::SmallGraph;
use std::alloc::Global;

/// A dart: where it begins and where it ends, and what its edge costs. That of edge `e` from its first end to its
/// second has the number `2 * e`, and the other one `2 * e + 1`.
#[derive(Clone, Copy, Debug, PartialEq, Eq)]
pub(crate) struct Dart {
    pub(crate) from: u32,
    pub(crate) to: u32,
    pub(crate) cost: i64,
}

/// A dart that leaves a vertex: where it leads, its number, and twice what its edge costs.
#[derive(Clone, Copy, Debug, PartialEq, Eq)]
pub(crate) struct Exit {
    pub(crate) to: u32,
    pub(crate) dart: u32,
    pub(crate) twice: i64,
}

/// The exits of all vertices, in order; for each vertex the first of its own, and at the end how many there are.
#[derive(Debug, Drop)]
pub(crate) struct Exits {
    pub(crate) vertices: u32,
    pub(crate) all: Vec<Exit>,
    pub(crate) firsts: Vec<u32>,
    pub(crate) ghost fits: { AreExits vertices all.items firsts.items },
}

impl Exits {
    ghost use Rattle.qm_fraction.specs.Tables.{exit_count};

    /// The first exit of a vertex, and the first behind them.
    pub(crate) fn range(&self, v: u32) -> (u32, u32)
        requires vertex { v < self.now.vertices }
        ensures { result.1 ≤ exit_count self.now }
    {
        (self.firsts[v as usize], self.firsts[v as usize + 1])
    }

    /// An exit by its place.
    pub(crate) fn exit(&self, place: u32) -> Exit
        requires place { place < exit_count self.now }
        ensures { IsExitWithin self.now.vertices result }
    {
        self.all[place as usize]
    }
}

/// The dart with a number, if there is one.
pub(crate) fn dart_at(g: &SmallGraph, d: u32) -> Option<Dart>
    ensures { IfSome result (IsDartWithin g.now.graph.n) }
{
    if d / 2 >= g.edge_count() {
        return None;
    }
    let WEdge { u, v, cost } = g.edge(d / 2);
    let (from, to) = if d % 2 == 0 { (u, v) } else { (v, u) };
    Some(Dart { from, to, cost })
}

/// The same edge in the other direction.
pub(crate) fn twin(d: u32) -> u32 {
    if d % 2 == 0 { d + 1 } else { d - 1 }
}

/// The exits of a graph that has vertices. Linear.
pub(crate) fn exits_of(alloc: Global, g: &SmallGraph) -> Result<Exits, Memory>
    requires some { 1 ≤ g.now.graph.n }
    ensures vertices { IfOk result (λ exits. exits.vertices ≡ g.now.graph.n) }
{
    let firsts = firsts_of(alloc, g)?;
    let none = Exit {
        to: 0,
        dart: 0,
        twice: 0,
    };
    let mut all = vec![in alloc; none; 2 * g.edge_count() as usize]?;
    let mut free = Vec::from_slice(alloc, &firsts)?;
    for d in 0..2 * g.edge_count() {
        put(g, &mut all, &mut free, d);
    }
    Ok(Exits {
        vertices: g.n(),
        all,
        firsts,
    })
}

/// For each vertex how many darts leave those before it, and at the end how many there are in all.
fn firsts_of(alloc: Global, g: &SmallGraph) -> Result<Vec<u32>, Memory>
    ensures count { IfOk result (λ firsts. length firsts.items ≡ g.now.graph.n + 1) }
    ensures within { IfOk result (λ firsts. All (λ first. first ≤ 2 * length g.now.graph.edges) firsts.items) }
{
    let all = 2 * g.edge_count();
    let mut counts = vec![in alloc; 0u32; g.n() as usize]?;
    for d in 0..all {
        if let Some(Dart { from, .. }) = dart_at(g, d) {
            counts[from as usize] = counts[from as usize].saturating_add(1);
        }
    }
    let mut firsts = Vec::with_capacity(alloc, g.n() as usize + 1)?;
    firsts.push(0)?;
    let mut before = 0u32;
    for count in &counts {
        before = before.saturating_add(*count).min(all);
        firsts.push(before)?;
    }
    Ok(firsts)
}

/// Puts a dart at the first free place of the vertex where it begins.
fn put(g: &SmallGraph, all: &mut [Exit], free: &mut [u32], d: u32)
    requires free { length free.old ≡ g.now.graph.n + 1 }
    requires few { length all.old ≤ 2 ^ 31 }
    requires all { All (IsExitWithin g.now.graph.n) all.old }
    ensures free { length free.new ≡ length free.old }
    ensures long { length all.new ≡ length all.old }
    ensures all { All (IsExitWithin g.now.graph.n) all.new }
{
    let Some(Dart { from, to, cost }) = dart_at(g, d) else {
        return;
    };
    let place = free[from as usize];
    if (place as usize) < all.len() {
        free[from as usize] = place + 1;
        let twice = cost.saturating_add(cost);
        all[place as usize] = Exit { to, dart: d, twice };
    }
}
