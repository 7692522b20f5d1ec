//! What it costs that arcs get longer.

ghost use Rattle.std.specs.Prelude.{◌≡◌, ◌<◌, ◌≤◌, length, IfOk};
ghost use Rattle.def_flow.specs.Admissible.{AreNetLengths};
ghost use Rattle.def_flow.specs.Network.{arc_at, network};
ghost use Rattle.def_flow.specs.declared.limits.TheConstants.{MAX_LENGTH};
ghost use Rattle.qm_remesh.specs.Rounds.{price_at, ArePrices};

use qm_net::{BoundedNet, arc_deviation};
use std::alloc::{AllocError, Global};

/// What one edge more on each arc costs, at these lengths. Linear.
pub(crate) fn prices_of(alloc: Global, net: &BoundedNet, x: &[u64]) -> Result<Vec<i64>, AllocError>
    requires { AreNetLengths net.now.whole.now.arcs.items x.now }
    ensures { IfOk result (λ prices.
        ArePrices (network net.now.whole.now) x.now (length net.now.whole.now.arcs.items) prices.items) }
{
    let mut prices = Vec::with_capacity(alloc, x.len())?;
    for (k, entry) in x.iter().enumerate() {
        prices.push(price_of(net, k, *entry))?;
    }
    Ok(prices)
}

/// How much farther an arc of this length gets from what is wanted of it by one edge more: less than nothing where it
/// gets nearer.
fn price_of(net: &BoundedNet, k: usize, entry: u64) -> i64
    requires arc { k < length net.now.whole.now.arcs.items }
    requires small { entry ≤ MAX_LENGTH }
    ensures { result ≡ price_at (network net.now.whole.now) (arc_at net.now.whole.now.arcs.items k) entry }
{
    arc_deviation(net, k, entry + 1) as i64 - arc_deviation(net, k, entry) as i64
}
