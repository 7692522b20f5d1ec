//! A forest of single vertices: the weights are the least costs, or are given.

ghost use Rattle.std.specs.Prelude.{◌≡◌, ◌+◌, ◌*◌, ◌/◌, ◌^◌, ◌<◌, ◌≤◌, ◌+ℤ◌, ◌*ℤ◌, ◌≤ℤ◌, ℕ, pos, length};
ghost use Rattle.std.specs.Prelude.{slice_index_or, unsigned_abs, max, replicate, false, IfOk, None};
ghost use Rattle.std.specs.Vec.{vec_capacity};
ghost use Rattle.def_matching.specs.Matching.{edge_at, Vertex};
ghost use Rattle.def_forest.specs.Forests.{Blossom};
ghost use Rattle.def_forest.specs.Tables.{forest_of, IsValidFor};
ghost use Rattle.def_forest.specs.declared.kinds.Label.TheVariants.{Outside};
ghost use Rattle.def_forest.specs.Needs.{AreFeasible};
ghost use Rattle.qm_forest.specs.Ties.{AreStarts, IsCounted, IsLowered};

use crate::darts::near;
use crate::forest::Forest;
use crate::room::Room;
use crate::tables::{Handles, Lists, Rings, Trail, Tree, Weights};
use def_forest::Label;
use qm_dual::SmallGraph;
use qm_pool::Pool;
use std::alloc::{AllocError, Global};

/// Want of memory.
pub type Memory = AllocError;

impl Forest {
    /// A forest without matching, sets and tree. The weight of a vertex is the least cost at it, or where it has no
    /// edge, the greatest cost: no weight is above all costs, up or down.
    pub fn new(alloc: Global, g: &SmallGraph) -> Result<Forest, Memory>
        requires costs { (e : ℕ) → e < length g.now.graph.edges → unsigned_abs (edge_at g.now.graph e).cost ≤ 2 ^ 60 }
        ensures valid { IfOk result (λ f. IsValidFor g.now.graph f) }
        ensures empty { IfOk result (λ f. (b : Blossom) → (forest_of f).mate b ≡ None) }
        ensures no_tree { IfOk result (λ f. f.root ≡ None) }
        ensures size { IfOk result (λ f. length f.up ≡ g.now.graph.n + g.now.graph.n / 2) }
        ensures sets { IfOk result (λ f. (b : Blossom) → g.now.graph.n ≤ b → (forest_of f).weight b ≡ pos 0) }
        ensures small { IfOk result (λ f. (c : ℕ)
            → ((e : ℕ) → e < length g.now.graph.edges → unsigned_abs (edge_at g.now.graph e).cost ≤ c)
            → (b : Blossom) → unsigned_abs ((forest_of f).weight b) ≤ c) }
    {
        let most = greatest_cost(g);
        let lows = least_costs(alloc, g, most)?;
        Forest::new_from(alloc, g, &lows)
    }

    /// A forest without matching, sets and tree. The weights of the vertices are given: a feasible dual.
    pub fn new_from(alloc: Global, g: &SmallGraph, y: &[i64]) -> Result<Forest, Memory>
        requires { AreFeasible g.now.graph y.now }
        ensures valid { IfOk result (λ f. IsValidFor g.now.graph f) }
        ensures empty { IfOk result (λ f. (b : Blossom) → (forest_of f).mate b ≡ None) }
        ensures no_tree { IfOk result (λ f. f.root ≡ None) }
        ensures size { IfOk result (λ f. length f.up ≡ g.now.graph.n + g.now.graph.n / 2) }
        ensures single { IfOk result (λ f. (v : Vertex) → v < g.now.graph.n → (forest_of f).out v ≡ v) }
        ensures weights { IfOk result (λ f.
            (b : Blossom) → (forest_of f).weight b ≡ slice_index_or y.now b (pos 0)) }
    {
        let lows = widen(alloc, y)?;
        single_vertices(alloc, g, lows)
    }
}

/// A forest of single vertices, of given weights.
fn single_vertices(alloc: Global, g: &SmallGraph, lows: Vec<i128>) -> Result<Forest, Memory>
    requires weights { AreFeasible g.now.graph lows.items }
    ensures valid { IfOk result (λ f. IsValidFor g.now.graph f) }
    ensures empty { IfOk result (λ f. (b : Blossom) → (forest_of f).mate b ≡ None) }
    ensures no_tree { IfOk result (λ f. f.root ≡ None) }
    ensures size { IfOk result (λ f. length f.up ≡ g.now.graph.n + g.now.graph.n / 2) }
    ensures single { IfOk result (λ f. (v : Vertex) → v < g.now.graph.n → (forest_of f).out v ≡ v) }
    ensures weights { IfOk result (λ f.
        (b : Blossom) → (forest_of f).weight b ≡ slice_index_or lows.items b (pos 0)) }
{
    let n = g.n() as usize;
    let size = n + n / 2;
    let near = dart_starts(alloc, g)?;
    Ok(Forest {
        weights: Weights {
            base: pad(alloc, &lows, size)?,
            delta: 0,
        },
        handles: single_handles(alloc, lows)?,
        lists: single_lists(alloc, n, size)?,
        rings: no_rings(alloc, size)?,
        trail: empty_trail(alloc, n)?,
        tree: no_tree(alloc, size, near)?,
        pool: empty_pool(alloc, n / 2)?,
        room: Some(Room::new(alloc, n, g.edge_count() as usize)?),
    })
}

/// Where each dart of a graph begins.
fn dart_starts(alloc: Global, g: &SmallGraph) -> Result<Vec<u32>, Memory>
    ensures { IfOk result (λ v. AreStarts g.now.graph (2 * length g.now.graph.edges) v.items) }
{
    let count = 2 * g.edge_count();
    let mut starts = Vec::with_capacity(alloc, count as usize)?;
    for d in 0..count {
        starts.push(near(g, d))?;
    }
    Ok(starts)
}

/// The greatest cost, up or down.
#[tactic(auto, using(crate::proofs::Fresh::one_more_cost))]
pub fn greatest_cost(g: &SmallGraph) -> u64
    requires costs { (e : ℕ) → e < length g.now.graph.edges → unsigned_abs (edge_at g.now.graph e).cost ≤ 2 ^ 60 }
    ensures above { (e : ℕ) → e < length g.now.graph.edges → unsigned_abs (edge_at g.now.graph e).cost ≤ result }
    ensures least { (c : ℕ) → ((e : ℕ) → e < length g.now.graph.edges → unsigned_abs (edge_at g.now.graph e).cost ≤ c)
        → result ≤ c }
{
    let mut most = 0;
    for e in 0..g.edge_count() {
        most = greater_of(most, g.edge(e).cost.unsigned_abs());
    }
    most
}

/// The greater of two numbers.
pub(crate) fn greater_of(a: u64, b: u64) -> u64
    ensures { result ≡ max a b }
{
    if a < b { b } else { a }
}

/// Numbers in 64 bits, in 128.
fn widen(alloc: Global, numbers: &[i64]) -> Result<Vec<i128>, Memory>
    ensures { IfOk result (λ v. v.items ≡ numbers.now) }
{
    let mut wide = Vec::with_capacity(alloc, numbers.len())?;
    for x in numbers {
        wide.push(i128::from(*x))?;
    }
    Ok(wide)
}

/// A handle for each vertex, its own.
fn single_handles(alloc: Global, lows: Vec<i128>) -> Result<Handles, Memory>
    requires { length lows.items ≤ 2 ^ 26 }
    ensures hand { IfOk result (λ h. IsCounted (length lows.items) h.hand.items) }
    ensures top { IfOk result (λ h. IsCounted (length lows.items) h.top.items) }
    ensures q { IfOk result (λ h. h.q.items ≡ lows.items) }
    ensures off { IfOk result (λ h. h.off.items ≡ replicate (length lows.items) (pos 0)) }
{
    let n = lows.len();
    Ok(Handles {
        hand: numbers_below(alloc, n)?,
        top: numbers_below(alloc, n)?,
        off: vec![in alloc; 0i128; n]?,
        q: lows,
    })
}

/// Each blossom is the list of its one vertex.
fn single_lists(alloc: Global, n: usize, size: usize) -> Result<Lists, Memory>
    requires { (n ≤ 2 ^ 26) × (size ≤ 2 ^ 26) }
    ensures leader { IfOk result (λ l. IsCounted size l.leader.items) }
    ensures first { IfOk result (λ l. IsCounted size l.first.items) }
    ensures last { IfOk result (λ l. IsCounted size l.last.items) }
    ensures following { IfOk result (λ l. IsCounted n l.following.items) }
    ensures rank { IfOk result (λ l. l.rank.items ≡ replicate size 1) }
{
    Ok(Lists {
        leader: numbers_below(alloc, size)?,
        first: numbers_below(alloc, size)?,
        last: numbers_below(alloc, size)?,
        following: numbers_below(alloc, n)?,
        rank: vec![in alloc; 1u32; size]?,
    })
}

/// No set has parts.
fn no_rings(alloc: Global, size: usize) -> Result<Rings, Memory>
    requires { size ≤ 2 ^ 26 }
    ensures up { IfOk result (λ r. IsCounted size r.up.items) }
    ensures parts { IfOk result (λ r. r.parts.items ≡ replicate size 0) }
    ensures after { IfOk result (λ r. length r.after.items ≡ size) }
    ensures joint { IfOk result (λ r. length r.joint.items ≡ size) }
    ensures head { IfOk result (λ r. length r.head.items ≡ size) }
{
    Ok(Rings {
        up: numbers_below(alloc, size)?,
        after: vec![in alloc; 0u32; size]?,
        joint: vec![in alloc; 0u32; size]?,
        head: vec![in alloc; 0u32; size]?,
        parts: vec![in alloc; 0u32; size]?,
    })
}

/// No blossom is matched, and no tree stands.
fn no_tree(alloc: Global, size: usize, near: Vec<u32>) -> Result<Tree, Memory>
    ensures label { IfOk result (λ t. t.label.items ≡ replicate size Outside) }
    ensures mate { IfOk result (λ t. t.mate.items ≡ replicate size None) }
    ensures link { IfOk result (λ t. length t.link.items ≡ size) }
    ensures root { IfOk result (λ t. t.root ≡ None) }
    ensures near { IfOk result (λ t. t.near.items ≡ near.items) }
{
    Ok(Tree {
        label: vec![in alloc; Label::Outside; size]?,
        mate: vec![in alloc; None; size]?,
        link: vec![in alloc; 0u32; size]?,
        root: None,
        near,
    })
}

/// A trail without vertices, with room for all.
fn empty_trail(alloc: Global, n: usize) -> Result<Trail, Memory>
    ensures vertices { IfOk result (λ t. length t.vertices.items ≡ 0) }
    ensures touched { IfOk result (λ t. t.touched.items ≡ replicate n false) }
    ensures room { IfOk result (λ t. n ≤ vec_capacity t.vertices) }
{
    Ok(Trail {
        vertices: Vec::with_capacity(alloc, n)?,
        touched: vec![in alloc; false; n]?,
    })
}

/// A pool of so many sets, none of them in use.
fn empty_pool(alloc: Global, room: usize) -> Result<Pool, Memory>
    requires { room ≤ 2 ^ 26 }
    ensures { IfOk result (λ p. p ≡ replicate room None) }
{
    let mut pool = Pool::new(alloc);
    pool.reserve(room as u32)?;
    Ok(pool)
}

/// The least cost at each vertex, or where it has no edge, the greatest one: a feasible dual.
pub fn least_costs(alloc: Global, g: &SmallGraph, most: u64) -> Result<Vec<i64>, Memory>
    requires costs { (e : ℕ) → e < length g.now.graph.edges → unsigned_abs (edge_at g.now.graph e).cost ≤ most }
    requires few { most ≤ 2 ^ 60 }
    ensures numbers { IfOk result (λ lows. length lows.items ≡ g.now.graph.n) }
    ensures small { IfOk result (λ lows. (v : Vertex) → unsigned_abs (slice_index_or lows.items v (pos 0)) ≤ most) }
    ensures feasible { IfOk result (λ lows. (e : ℕ) → e < length g.now.graph.edges
        → (slice_index_or lows.items (edge_at g.now.graph e).u (pos 0)
        +ℤ slice_index_or lows.items (edge_at g.now.graph e).v (pos 0))
        ≤ℤ (pos 2 *ℤ (edge_at g.now.graph e).cost)) }
{
    let mut lows = vec![in alloc; most as i64; g.n() as usize]?;
    for e in 0..g.edge_count() {
        let edge = g.edge(e);
        lower(&mut lows, edge.u, edge.cost);
        lower(&mut lows, edge.v, edge.cost);
    }
    Ok(lows)
}

/// Lowers a number to another, if that is less.
fn lower(numbers: &mut Vec<i64>, place: u32, most: i64)
    requires { place < length numbers.old.items }
    ensures { IsLowered numbers.old.items numbers.new.items place most }
{
    if most < numbers[place as usize] {
        numbers[place as usize] = most;
    }
}

/// The numbers of a list, and zeros up to a length.
fn pad(alloc: Global, numbers: &[i128], size: usize) -> Result<Vec<i128>, Memory>
    requires { length numbers.now ≤ size }
    ensures size { IfOk result (λ v. length v.items ≡ size) }
    ensures each { IfOk result (λ v.
        (k : ℕ) → slice_index_or v.items k (pos 0) ≡ slice_index_or numbers.now k (pos 0)) }
{
    let mut all = Vec::from_slice(alloc, numbers)?;
    for _ in numbers.len()..size {
        all.push(0)?;
    }
    Ok(all)
}

/// The numbers below a bound, in increasing order.
fn numbers_below(alloc: Global, n: usize) -> Result<Vec<u32>, Memory>
    requires { n ≤ 2 ^ 26 }
    ensures { IfOk result (λ v. IsCounted n v.items) }
{
    let mut numbers = Vec::with_capacity(alloc, n)?;
    for i in 0..n {
        numbers.push(i as u32)?;
    }
    Ok(numbers)
}
