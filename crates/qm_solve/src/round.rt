//! One round of the descent.

ghost use Rattle.std.specs.Prelude.{◌≡◌, ◌≤◌, ℕ, pos, length, slice_index_or};
ghost use Rattle.std.specs.Prelude.{unsigned_abs, IfOk};
ghost use Rattle.def_matching.specs.Matching.{graph, IsSmallGraph};
ghost use Rattle.def_flow.specs.Network.{network};
ghost use Rattle.qm_solve.specs.Rounds.{IsRound};

use crate::Memory;
use crate::descent::Descent;
use crate::idle::without_idle_sets;
use crate::priced::wishes_of;
use def_flow::{Gadget, Net};
use def_matching::Dual;
use qm_dual::SmallGraph;
use qm_gadget::{graph_of, lengths_of, matching_of};
use qm_initial::{MAX_WISH, least_costs};
use qm_match::{best_near, cost_of};
use qm_net::BoundedNet;
use std::alloc::Global;

/// What a round finds: a list of less deviation, or a dual by which no list a few steps away has less.
#[derive(Debug, Drop)]
pub(crate) enum Round {
    Better { x: Vec<u64> },
    Least { dual: Dual },
}

/// The round that a descent has before it. It takes one least matching.
pub(crate) fn improve(alloc: Global, descent: &Descent) -> Result<Round, Memory>
    ensures { IfOk result (λ round.
        IsRound (network descent.now.net.whole.now) descent.now.step descent.now.x.items round) }
{
    let net = BoundedNet {
        whole: descent.net.whole,
    };
    let gadget = graph_of(alloc, &net, &descent.x, descent.step)?;
    let graph = SmallGraph {
        whole: &gadget.graph,
    };
    let known = matching_of(alloc, &net, &gadget, &descent.x)?;
    let wish = first_wishes(alloc, net.whole, &gadget, &descent.prices)?;
    let (edges, dual) = best_near(alloc, &graph, &known, &wish)?;
    if cost_of(&graph, &edges) < cost_of(&graph, &known) {
        let x = lengths_of(alloc, &net, &gadget, &edges)?;
        Ok(Round::Better { x })
    } else {
        let dual = without_idle_sets(alloc, &graph, dual)?;
        Ok(Round::Least { dual })
    }
}

/// What is wished of the first dual of a round: by the prices of the nodes, which are those of steps of 1, or by the
/// costs. Linear in the graph.
pub fn first_wishes(
    alloc: Global,
    net: &Net,
    gadget: &Gadget,
    prices: &[i64],
) -> Result<Vec<i64>, Memory>
    requires { IsSmallGraph (graph gadget.now.graph) }
    ensures long { IfOk result (λ wish. length wish.items ≡ gadget.now.graph.n) }
    ensures near { IfOk result (λ wish. (v : ℕ) → unsigned_abs (slice_index_or wish.items v (pos 0)) ≤ MAX_WISH) }
{
    if gadget.step == 1 && !prices.is_empty() {
        wishes_of(alloc, net, gadget, prices)
    } else {
        least_costs(
            alloc,
            &SmallGraph {
                whole: &gadget.graph,
            },
        )
    }
}
