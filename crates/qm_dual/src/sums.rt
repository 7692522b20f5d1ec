//! Sums of the numbers of nested sets.

ghost use Rattle.std.specs.Prelude.{◌≡◌, ◌+◌, ◌^◌, ◌<◌, ◌≤◌, length, unsigned_abs, IfOk};
ghost use Rattle.def_math.specs.Sums.{total};
ghost use Rattle.def_matching.specs.Dual.{dual, dual_sum, AreSmall};
ghost use Rattle.qm_dual.specs.Nest.{around, named_sum, AreSums};

use crate::check::Memory;
use crate::nest::{Nested, set_around_set};
use std::alloc::Global;

/// For each set the sum of its `z` and of those of the sets around it. Linear in the sets.
pub(crate) fn nested_sums(alloc: Global, d: &Nested) -> Result<Vec<i128>, Memory>
    ensures { IfOk result (λ sums. AreSums d.now.n (dual d.now.whole.now) 0 sums.items) }
{
    let mut sums = vec![in alloc; 0i128; d.whole.z.len()]?;
    let mut k = d.whole.z.len();
    while k > 0 {
        k -= 1;
        sums[k] = own_sum(d, &sums, k);
    }
    Ok(sums)
}

/// The sum of the `z` of a set and of those of the sets around it, from the sums of the later sets.
fn own_sum(d: &Nested, sums: &[i128], k: usize) -> i128
    requires inner { k < length d.now.whole.now.z.items }
    requires summed { AreSums d.now.n (dual d.now.whole.now) (k + 1) sums.now }
    ensures { result ≡ around d.now.n (dual d.now.whole.now) (k + 1) }
{
    i128::from(d.whole.z[k]) + sum_of(sums, set_around_set(d, k))
}

/// The sum of the set that an entry of `up` names, or 0 if it names none.
pub(crate) fn sum_of(sums: &[i128], entry: u32) -> i128
    requires { entry ≤ length sums.now }
    ensures { result ≡ named_sum sums.now entry }
{
    if entry == 0 {
        0
    } else {
        sums[entry as usize - 1]
    }
}

/// The sum of a dual: of all `y` and all `z`.
pub(crate) fn sum_of_dual(d: &Nested) -> i128
    ensures { result ≡ dual_sum (dual d.now.whole.now) }
{
    let y = SmallNumbers { all: &d.whole.y };
    let z = SmallNumbers { all: &d.whole.z };
    sum(&y) + sum(&z)
}

/// Numbers of a dual: few, and small.
#[derive(Clone, Copy)]
struct SmallNumbers<'a> {
    all: &'a [i64],
    ghost few: { length all.now ≤ 2 ^ 30 },
    ghost small: { AreSmall all.now },
}

fn sum(numbers: &SmallNumbers) -> i128
    ensures value { result ≡ total (λ x. x) numbers.now.all.now }
    ensures small { unsigned_abs result ≤ 2 ^ 90 }
{
    let mut sum = 0i128;
    for number in numbers.all {
        sum += i128::from(*number);
    }
    sum
}
