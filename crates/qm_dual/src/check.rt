//! The checker of duals.

ghost use Rattle.std.specs.Prelude.{◌≡◌, ◌+◌, ◌^◌, ◌<◌, ◌≤◌, ◌*ℤ◌, ◌≤ℤ◌, ℕ, ℤ, List, pos, not, length, slice_index};
ghost use Rattle.std.specs.Prelude.{slice_index_or, int_lt, IfOk, IfNone, IfSome};
ghost use Rattle.def_math.specs.Searches.{least};
ghost use Rattle.def_matching.specs.Dual.{dual, verdict, shape_fault, is_odd_size, is_up, IsSmallDual};
ghost use Rattle.def_matching.specs.Matching.{matching_cost, IsPerfect};
ghost use Rattle.def_matching.specs.declared.limits.TheConstants.{MAX_SETS, MAX_VERTICES};
ghost use Rattle.qm_dual.specs.Nest.{IsNest};

use crate::loads::{Judged, Tables, check_loads};
use crate::nest::{Nested, Numbered};
use crate::paths::path_heads;
use crate::sizes::set_sizes;
use crate::small::SmallGraph;
use crate::sums::nested_sums;
use def_matching::{Dual, MAX_SETS, MAX_VERTICES, Verdict};
use std::alloc::{AllocError, Global};

/// Want of memory.
pub type Memory = AllocError;

/// The verdict on a dual of a graph. After `Yes` twice the cost of each perfect matching is at least the sum.
///
/// Linear in the vertices and sets, and logarithmic in them for each edge.
pub fn dual_ok(alloc: Global, g: &SmallGraph, d: &Dual) -> Result<Verdict, Memory>
    requires small { IsSmallDual (dual d.now) }
    ensures exact { IfOk result (λ v. v ≡ verdict g.now.graph (dual d.now)) }
    // No perfect matching is cheaper than half of the sum.
    ensures bound { IfOk result (λ v.
        (sum : ℤ) → v ≡ Verdict.Yes sum → (m : List ℕ) → IsPerfect g.now.graph m
        → sum ≤ℤ (pos 2 *ℤ matching_cost g.now.graph m)) }
{
    if let Some(index) = shape_fault_of(g.n(), d) {
        return Ok(Verdict::Shape { index });
    }
    let d = Nested { n: g.n(), whole: d };
    check_sets(alloc, &Judged { g, d })
}

/// The verdict on a dual of the right shape.
fn check_sets(alloc: Global, judged: &Judged) -> Result<Verdict, Memory>
    ensures { IfOk result (λ v. v ≡ verdict judged.now.g.now.graph (dual judged.now.d.whole.now)) }
{
    let d = judged.d;
    let sizes = set_sizes(alloc, &d)?;
    if let Some(set) = even_set(&sizes) {
        let size = sizes[set as usize];
        return Ok(Verdict::Even { set, size });
    }
    if let Some(set) = negative_set(&d.whole.z) {
        return Ok(Verdict::Negative { set });
    }
    let sums = nested_sums(alloc, &d)?;
    let sized = Numbered { d, numbers: &sizes };
    let heads = path_heads(alloc, &sized)?;
    Ok(check_loads(judged, &Tables { sums, heads }))
}

/// Where the lists of a dual have the wrong lengths, or else the least place at which `up` is out of range.
fn shape_fault_of(n: u32, d: &Dual) -> Option<u32>
    requires few { n ≤ MAX_VERTICES }
    requires sets { length d.now.z.items ≤ MAX_SETS }
    ensures fault { result ≡ shape_fault n (dual d.now) }
    ensures numbers { IfNone result (length d.now.y.items ≡ n) }
    ensures nest { IfNone result (IsNest n (dual d.now)) }
{
    if d.y.len() != n as usize {
        return Some(n);
    }
    if d.up.len() != n as usize + d.z.len() {
        return Some(n + 1);
    }
    place_fault_of(&Places {
        n,
        sets: d.z.len() as u32,
        up: &d.up,
    })
}

/// An entry for each of so many vertices and of so many sets.
#[derive(Clone, Copy)]
struct Places<'a> {
    n: u32,
    sets: u32,
    up: &'a [u32],
    ghost few: { n ≤ MAX_VERTICES },
    ghost some: { sets ≤ MAX_SETS },
    ghost whole: { length up.now ≡ n + sets },
}

/// The least place whose entry names no set, or one that comes no later.
fn place_fault_of(places: &Places) -> Option<u32>
    ensures { result
        ≡ least (λ i. not (is_up places.now.n places.now.sets i (slice_index places.now.up.now i)))
        (places.now.n + places.now.sets) }
{
    for (i, entry) in places.up.iter().enumerate() {
        if !may_stand(places.n, places.sets, i as u32, *entry) {
            return Some(i as u32);
        }
    }
    None
}

/// Whether an entry of `up` may stand at place `i`.
fn may_stand(n: u32, sets: u32, i: u32, entry: u32) -> bool
    ensures { result ≡ is_up n sets i entry }
{
    entry == 0 || (u64::from(i) + 1 < u64::from(n) + u64::from(entry) && entry <= sets)
}

/// The least set that holds an even number of vertices, or fewer than three.
fn even_set(sizes: &[u32]) -> Option<u32>
    requires { length sizes.now ≤ 2 ^ 30 }
    ensures least { result ≡ least (λ k. not (is_odd_size (slice_index sizes.now k))) (length sizes.now) }
    ensures low { IfSome result (λ k. k < length sizes.now) }
{
    for (k, size) in sizes.iter().enumerate() {
        if size % 2 != 1 || *size < 3 {
            return Some(k as u32);
        }
    }
    None
}

/// The least set whose `z` is below 0.
fn negative_set(z: &[i64]) -> Option<u32>
    requires { length z.now ≤ 2 ^ 30 }
    ensures { result ≡ least (λ k. int_lt (slice_index_or z.now k (pos 0)) (pos 0)) (length z.now) }
{
    for (k, number) in z.iter().enumerate() {
        if *number < 0 {
            return Some(k as u32);
        }
    }
    None
}
