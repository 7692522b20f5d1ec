//! Least perfect matchings: all memory of one is taken first, and finding it takes none.

ghost use Rattle.std.specs.Prelude.{◌≡◌, ◌+◌, ◌*◌, ◌*ℤ◌, ◌^◌, ◌<◌, ◌≤◌, ℕ, length, pos, slice_index_or};
ghost use Rattle.std.specs.Prelude.{unsigned_abs, true, IfOk};
ghost use Rattle.def_matching.specs.Matching.{edge_at, matching_cost, IsCheap, IsPerfect};
ghost use Rattle.def_matching.specs.Dual.{dual, verdict, IsSmallDual};
ghost use Rattle.def_forest.specs.Forests.{Blossom};
ghost use Rattle.def_forest.specs.Tables.{forest_of};
ghost use Rattle.def_forest.specs.Made.{AreAtMost, AreCostsBelow, AreFirst, IsMadeFor};

use crate::Memory;
use crate::fans::fans_of;
use crate::first::{First, are_small, led};
use crate::search::Search;
use crate::shown::shown_by;
use crate::start::search_of;
use crate::weights::first_weights;
use def_matching::{Dual, Verdict};
use qm_dual::SmallGraph;
use qm_forest::{Forest, greatest_cost};
use qm_initial::{MAX_WISH, initial_dual};
use std::alloc::Global;
use std::marker::Model;

/// The room for one least matching, seen as the forest in which it is searched.
#[derive(Drop)]
pub struct Matcher {
    search: Search,
    /// Edges that are matched before others, where they are tight.
    wished: Vec<u32>,
}

impl Model for Matcher {
    ghost use Rattle.def_forest.specs.Tables.{ForestTables};
    ghost use Rattle.qm_match.specs.States.{IsReady};

    ghost Value = { ForestTables };

    ghost view = { λ m. m.search.forest };

    ghost invariant = { λ m. IsReady m.search };
}

impl Matcher {
    /// Takes all memory of a match. The first weights are the least costs, raised as far as the edges at each vertex
    /// allow, and at most to the greatest cost.
    pub fn new(alloc: Global, g: &SmallGraph) -> Result<Matcher, Memory>
        requires costs { (e : ℕ) → e < length g.now.graph.edges → unsigned_abs (edge_at g.now.graph e).cost ≤ 2 ^ 60 }
        ensures made { IfOk result (λ m. IsMadeFor g.now.graph m) }
        ensures small { IfOk result (λ m. (most : ℕ) → AreCostsBelow g.now.graph most
            → (b : Blossom) → unsigned_abs ((forest_of m).weight b) ≤ most) }
    {
        let fans = fans_of(alloc, g)?;
        let y = first_weights(alloc, g, &fans)?;
        let forest = Forest::new_from(alloc, g, &y)?;
        drop(y);
        let search = search_of(alloc, g, forest, fans)?;
        let wished = Vec::new(alloc);
        Ok(Matcher { search, wished })
    }

    /// Takes all memory of a match. The first weights are given, a feasible dual.
    pub fn new_from(alloc: Global, g: &SmallGraph, y: &[i64]) -> Result<Matcher, Memory>
        requires first { AreFirst g.now.graph y.now }
        ensures made { IfOk result (λ m. IsMadeFor g.now.graph m) }
    {
        let forest = Forest::new_from(alloc, g, y)?;
        let fans = fans_of(alloc, g)?;
        let search = search_of(alloc, g, forest, fans)?;
        let wished = Vec::new(alloc);
        Ok(Matcher { search, wished })
    }

    /// Takes all memory of a match. The first weights are those of a least fractional matching, which is found from
    /// given ones, a feasible dual; one perfect matching is known. Where they would be out of range, the given ones
    /// stay.
    pub fn new_led(
        alloc: Global,
        g: &SmallGraph,
        known: &[u32],
        y: Vec<i64>,
    ) -> Result<Matcher, Memory>
        requires first { AreFirst g.now.graph y.items }
        ensures made { IfOk result (λ m. IsMadeFor g.now.graph m) }
    {
        let First { y, edges } = led(alloc, g, known, y)?;
        let forest = Forest::new_from(alloc, g, &y)?;
        drop(y);
        let fans = fans_of(alloc, g)?;
        let search = search_of(alloc, g, forest, fans)?;
        Ok(Matcher {
            search,
            wished: edges,
        })
    }

    /// Finds a least perfect matching, in increasing order, and a dual that shows it to be least. One perfect matching
    /// is known: its edges that are tight from the start are matched first. It takes no memory and cannot fail.
    #[tactic(auto, using(crate::proofs::Outcomes::increasing_low))]
    pub fn run(self, g: &SmallGraph, known: &[u32]) -> (Vec<u32>, Dual)
        requires cheap { IsCheap g.now.graph }
        requires made { IsMadeFor g.now.graph self }
        requires known { IsPerfect g.now.graph known.now }
        ensures perfect { IsPerfect g.now.graph result.0.items }
        ensures dual { IsSmallDual (dual result.1) }
        // No number is far above the first weights and the costs.
        ensures bounded { (first most : ℕ) → ((b : Blossom) → unsigned_abs ((forest_of self).weight b) ≤ first)
            → AreCostsBelow g.now.graph most
            → AreAtMost (2 * (g.now.graph.n * first) + g.now.graph.n * most) (dual result.1) }
        ensures least { verdict g.now.graph (dual result.1)
            ≡ Verdict.Yes (pos 2 *ℤ matching_cost g.now.graph result.0.items) }
    {
        let Matcher { mut search, wished } = self;
        search.match_tight(g, &wished, known);
        search.match_all(g);
        search.into_parts(g)
    }
}

/// A least perfect matching, in increasing order, and a dual that shows it to be least: the verdict on it is yes, with
/// twice the matching's cost. One perfect matching is known.
///
/// It fails for want of memory alone.
#[tactic(auto, using(crate::proofs::Outcomes::cheap_costs))]
pub fn best(alloc: Global, g: &SmallGraph, known: &[u32]) -> Result<(Vec<u32>, Dual), Memory>
    requires cheap { IsCheap g.now.graph }
    requires known { IsPerfect g.now.graph known.now }
    ensures perfect { IfOk result (λ found. IsPerfect g.now.graph found.0.items) }
    ensures dual { IfOk result (λ found. IsSmallDual (dual found.1)) }
    // No number is above four times the product of the vertices with the greatest cost.
    ensures bounded { IfOk result (λ found. (most : ℕ) → AreCostsBelow g.now.graph most
        → AreAtMost (4 * g.now.graph.n * most) (dual found.1)) }
    ensures least { IfOk result (λ found. verdict g.now.graph (dual found.1)
        ≡ Verdict.Yes (pos 2 *ℤ matching_cost g.now.graph found.0.items)) }
{
    let y = usual_weights(alloc, g)?;
    let matcher = Matcher::new_led(alloc, g, known, y)?;
    let (edges, dual) = matcher.run(g, known);
    if is_near(g, &dual) {
        return Ok((edges, dual));
    }
    // The weights were led too far, which no graph is known to do.
    let matcher = Matcher::new(alloc, g)?;
    Ok(matcher.run(g, known))
}

/// The first weights of `best`: the least costs, raised as far as the edges at each vertex allow.
fn usual_weights(alloc: Global, g: &SmallGraph) -> Result<Vec<i64>, Memory>
    requires cheap { IsCheap g.now.graph }
    ensures { IfOk result (λ y. AreFirst g.now.graph y.items) }
{
    let fans = fans_of(alloc, g)?;
    let y = first_weights(alloc, g, &fans)?;
    Ok(y)
}

/// Whether no number of a dual is above four times the product of the vertices with the greatest cost.
fn is_near(g: &SmallGraph, d: &Dual) -> bool
    requires costs { AreCostsBelow g.now.graph (2 ^ 60) }
    ensures { result ≡ true → (most : ℕ) → AreCostsBelow g.now.graph most
        → AreAtMost (4 * g.now.graph.n * most) (dual d.now) }
{
    let most = (4 * u64::from(g.n())).saturating_mul(greatest_cost(g));
    are_small(&d.y, most) && are_small(&d.z, most)
}

/// The same, from given first weights of the vertices, a feasible dual. One near a least dual leaves little to do.
pub fn best_from(
    alloc: Global,
    g: &SmallGraph,
    known: &[u32],
    y: &[i64],
) -> Result<(Vec<u32>, Dual), Memory>
    requires cheap { IsCheap g.now.graph }
    requires known { IsPerfect g.now.graph known.now }
    requires first { AreFirst g.now.graph y.now }
    ensures perfect { IfOk result (λ found. IsPerfect g.now.graph found.0.items) }
    ensures dual { IfOk result (λ found. IsSmallDual (dual found.1)) }
    ensures least { IfOk result (λ found. verdict g.now.graph (dual found.1)
        ≡ Verdict.Yes (pos 2 *ℤ matching_cost g.now.graph found.0.items)) }
{
    let matcher = Matcher::new_from(alloc, g, y)?;
    Ok(matcher.run(g, known))
}

/// The same, from first weights near wished ones. Any wish will do. Where the weights show the known matching to be
/// least, nothing is searched.
#[tactic(auto, using(crate::proofs::Outcomes::wished_first, crate::proofs::Outcomes::wished_small))]
pub fn best_near(
    alloc: Global,
    g: &SmallGraph,
    known: &[u32],
    wish: &[i64],
) -> Result<(Vec<u32>, Dual), Memory>
    requires cheap { IsCheap g.now.graph }
    requires known { IsPerfect g.now.graph known.now }
    requires long { length wish.now ≡ g.now.graph.n }
    requires near { (v : ℕ) → unsigned_abs (slice_index_or wish.now v (pos 0)) ≤ MAX_WISH }
    ensures perfect { IfOk result (λ found. IsPerfect g.now.graph found.0.items) }
    ensures dual { IfOk result (λ found. IsSmallDual (dual found.1)) }
    ensures least { IfOk result (λ found. verdict g.now.graph (dual found.1)
        ≡ Verdict.Yes (pos 2 *ℤ matching_cost g.now.graph found.0.items)) }
{
    let y = initial_dual(alloc, g, wish)?;
    if let Some(dual) = shown_by(alloc, g, known, &y)? {
        return Ok((Vec::from_slice(alloc, known)?, dual));
    }
    let matcher = Matcher::new_led(alloc, g, known, y)?;
    Ok(matcher.run(g, known))
}
