//! Duals with many nested sets.

ghost use Rattle.std.specs.Prelude.{◌≤◌, IfOk};
ghost use Rattle.def_matching.specs.Dual.{dual, IsSmallDual};

use def_matching::{Dual, MAX_VERTICES};
use std::alloc::{AllocError, Global};

/// How the sets of a dual nest.
#[derive(Clone, Copy, Debug, PartialEq, Eq)]
pub(crate) enum Shape {
    /// Each set holds the one before it and two vertices.
    Nest,
    /// Each set holds the next three sets or vertices.
    Tree,
    /// Each set of a chain holds the one before it and two sets of three vertices.
    Comb,
}

/// A dual of a graph with `n` vertices, with sets of odd size.
pub(crate) fn dual_of(alloc: Global, n: u32, shape: Shape) -> Result<Dual, AllocError>
    requires { n ≤ MAX_VERTICES }
    ensures { IfOk result (λ d. IsSmallDual (dual d)) }
{
    let sets = sets_in(n, shape);
    let y = vec![in alloc; -1_000_000i64; n as usize]?;
    let z = vec![in alloc; 1i64; sets as usize]?;
    let mut up = Vec::with_capacity(alloc, n as usize + sets as usize)?;
    for vertex in 0..n {
        up.push(around_vertex(vertex, sets, shape))?;
    }
    for set in 0..sets {
        up.push(around_set(set, n, sets, shape))?;
    }
    Ok(Dual { y, z, up })
}

/// How many sets there are.
fn sets_in(n: u32, shape: Shape) -> u32
    requires { n ≤ MAX_VERTICES }
    ensures { result ≤ MAX_VERTICES }
{
    match shape {
        Shape::Nest | Shape::Tree => n.saturating_sub(1) / 2,
        Shape::Comb => (n / 3).saturating_sub(1) / 2 * 3 + 1,
    }
}

/// What names the smallest set around a vertex.
fn around_vertex(vertex: u32, sets: u32, shape: Shape) -> u32
    requires { (vertex ≤ MAX_VERTICES) × (sets ≤ MAX_VERTICES) }
{
    let around = match shape {
        Shape::Nest => vertex.div_ceil(2).max(1),
        Shape::Tree | Shape::Comb => vertex / 3 + 1,
    };
    up_to(around, threes(sets, shape))
}

/// How many sets hold three vertices and no set; in a comb these come first.
fn threes(sets: u32, shape: Shape) -> u32
    requires { sets ≤ MAX_VERTICES }
    ensures { result ≤ MAX_VERTICES }
{
    match shape {
        Shape::Nest | Shape::Tree => sets,
        Shape::Comb => sets / 3 * 2 + 1,
    }
}

/// What names the set around a set.
fn around_set(set: u32, n: u32, sets: u32, shape: Shape) -> u32
    requires { (set ≤ MAX_VERTICES) × (n ≤ MAX_VERTICES) × (sets ≤ MAX_VERTICES) }
{
    let teeth = threes(sets, shape);
    let around = match shape {
        Shape::Nest => set + 2,
        Shape::Tree => (n + set) / 3 + 1,
        Shape::Comb if set < teeth => teeth + set.saturating_sub(1) / 2 + 1,
        Shape::Comb => set + 2,
    };
    up_to(around, sets)
}

/// The entry, or none where it is too large.
fn up_to(entry: u32, most: u32) -> u32 {
    if entry <= most { entry } else { 0 }
}
