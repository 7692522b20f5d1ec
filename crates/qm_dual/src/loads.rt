//! The loads of edges.

ghost use Rattle.std.specs.Prelude.{◌≡◌, ◌^◌, ◌<◌, ◌≤◌, ◌*ℤ◌, ℕ, pos, length, unsigned_abs};
ghost use Rattle.def_matching.specs.Dual.{dual, dual_sum, load, short_fault, refuse};
ghost use Rattle.def_matching.specs.Matching.{edge_at};
ghost use Rattle.qm_dual.specs.Nest.{apart, named_sum, AreTables};

use crate::nest::{Nested, set_around_vertex};
use crate::paths::meeting;
use crate::small::SmallGraph;
use crate::sums::{sum_of, sum_of_dual};
use def_matching::{Verdict, WEdge};

/// For each set the sum of the numbers around it, and the head of its path.
#[derive(Drop)]
pub(crate) struct Tables {
    pub sums: Vec<i128>,
    pub heads: Vec<u32>,
}

/// A dual over the vertices of a graph.
#[derive(Clone, Copy)]
pub(crate) struct Judged<'g, 'w, 'd> {
    pub g: &'g SmallGraph<'w>,
    pub d: Nested<'d>,
    ghost over: { d.n ≡ g.now.graph.n },
}

/// The verdict on a dual whose sets are in order: the least edge whose load is above twice its cost, or the sum.
pub(crate) fn check_loads(judged: &Judged, tables: &Tables) -> Verdict
    requires { AreTables judged.now.d.n (dual judged.now.d.whole.now) tables.now.sums.items tables.now.heads.items }
    ensures { result ≡ refuse (short_fault judged.now.g.now.graph (dual judged.now.d.whole.now))
        (λ k. Verdict.Short k
        (load judged.now.g.now.graph.n (dual judged.now.d.whole.now) (edge_at judged.now.g.now.graph k))
        (pos 2 *ℤ (edge_at judged.now.g.now.graph k).cost))
        (Verdict.Yes (dual_sum (dual judged.now.d.whole.now))) }
{
    for k in 0..judged.g.edge_count() {
        let edge = judged.g.edge(k);
        let load = load_of(&judged.d, tables, &edge);
        let cost = 2 * i128::from(edge.cost);
        if load > cost {
            return Verdict::Short {
                edge: k,
                load,
                cost,
            };
        }
    }
    Verdict::Yes {
        sum: sum_of_dual(&judged.d),
    }
}

/// The load of an edge. Logarithmic in the number of vertices.
fn load_of(d: &Nested, tables: &Tables, edge: &WEdge) -> i128
    requires tables { AreTables d.now.n (dual d.now.whole.now) tables.now.sums.items tables.now.heads.items }
    requires ends { (edge.now.u < d.now.n) × (edge.now.v < d.now.n) }
    ensures { result ≡ load d.now.n (dual d.now.whole.now) edge.now }
{
    let ends = i128::from(d.whole.y[edge.u as usize]) + i128::from(d.whole.y[edge.v as usize]);
    let first = set_around_vertex(d, edge.u);
    let second = set_around_vertex(d, edge.v);
    ends + crossing_sum(d, tables, first, second)
}

/// The sum of the `z` of the sets around exactly one of two entries of `up`.
fn crossing_sum(d: &Nested, tables: &Tables, a: u32, b: u32) -> i128
    requires tables { AreTables d.now.n (dual d.now.whole.now) tables.now.sums.items tables.now.heads.items }
    requires entries { (a ≤ length d.now.whole.now.z.items) × (b ≤ length d.now.whole.now.z.items) }
    ensures value { result ≡ apart d.now.n (dual d.now.whole.now) a b }
    ensures small { unsigned_abs result ≤ 2 ^ 92 }
{
    let both = sum_at(tables, meeting(d, &tables.heads, a, b));
    sum_at(tables, a) + sum_at(tables, b) - (both + both)
}

/// The sum of the numbers around what an entry of `up` names.
fn sum_at(tables: &Tables, entry: u32) -> i128
    requires { entry ≤ length tables.now.sums.items }
    ensures { result ≡ named_sum tables.now.sums.items entry }
{
    sum_of(&tables.sums, entry)
}
