//! The sum of a dual against twice the cost.

ghost use Rattle.std.specs.Prelude.{◌≡◌, ◌^◌, ◌≤◌, pos, ◌-ℤ◌, ◌*ℤ◌, if◌then◌else◌, unsigned_abs};
ghost use Rattle.std.specs.Ordering.{int_eq};
ghost use Rattle.def_flow.specs.Network.{network};
ghost use Rattle.def_flow.specs.Gadget.{lows as lows_of_list};
ghost use Rattle.def_matching.specs.Dual.{dual_sum};
ghost use Rattle.def_flow.specs.Accepted.{certificate, sums_verdict};

use crate::listed::Listed;
use def_flow::CertVerdict;
use qm_net::deviation;

/// The verdict on a certificate whose list is admissible and whose dual says yes: by the dual's sum and twice the
/// cost of the units that are on, which is the deviation of the list less that of its lows. Linear.
pub(crate) fn sum_verdict(listed: &Listed, lows: &[u64], sum: i128) -> CertVerdict
    requires lows { lows.now ≡ lows_of_list (network listed.now.net.whole.now) 1 listed.now.cert.now.x.items }
    requires sum { sum ≡ dual_sum (certificate listed.now.cert.now).dual }
    ensures { result ≡ sums_verdict (network listed.now.net.whole.now) (certificate listed.now.cert.now) }
{
    let net = listed.net.whole;
    let far = deviation(net, &listed.cert.x);
    verdict_by_sum(far, sum, twice_between(deviation(net, lows), far))
}

/// Twice the way from one number to another.
fn twice_between(near: i128, far: i128) -> i128
    requires near { unsigned_abs near ≤ 2 ^ 120 }
    requires far { unsigned_abs far ≤ 2 ^ 120 }
    ensures { result ≡ pos 2 *ℤ (far -ℤ near) }
{
    2 * (far - near)
}

/// The verdict by the sum of a dual and twice the cost.
fn verdict_by_sum(far: i128, sum: i128, cost: i128) -> CertVerdict
    ensures { result ≡ (if int_eq sum cost then CertVerdict.Yes far else CertVerdict.Sums sum cost) }
{
    if sum == cost {
        CertVerdict::Yes { deviation: far }
    } else {
        CertVerdict::Sums { dual: sum, cost }
    }
}
