//! The sizes of nested sets.

ghost use Rattle.std.specs.Prelude.{◌≡◌, ◌+◌, ◌-◌, ◌^◌, ◌<◌, ◌≤◌, length, replicate, slice_index, IfOk};
ghost use Rattle.def_matching.specs.Dual.{dual};
ghost use Rattle.qm_dual.specs.Nest.{AreTallies, AreSizes, tally_with};

use crate::check::Memory;
use crate::nest::{Nested, set_around_set, set_around_vertex};
use std::alloc::Global;

/// How many vertices each set holds. Linear in the entries of `up`.
pub(crate) fn set_sizes(alloc: Global, d: &Nested) -> Result<Vec<u32>, Memory>
    ensures { IfOk result (λ sizes. AreSizes d.now.n (dual d.now.whole.now) sizes.items) }
{
    let mut sizes = vec![in alloc; 0u32; d.whole.z.len()]?;
    count_direct(d, &mut sizes);
    pass_up(d, &mut sizes);
    Ok(sizes)
}

/// Counts for each set the vertices that have it as the smallest around them.
fn count_direct(d: &Nested, sizes: &mut [u32])
    requires { sizes.old ≡ replicate (length d.now.whole.now.z.items) 0 }
    ensures { AreTallies d.now.n (length d.now.whole.now.z.items) d.now.whole.now.up.items d.now.n (λ k. 0) sizes.new }
{
    for v in 0..d.n {
        tally(sizes, set_around_vertex(d, v), 1);
    }
}

/// Adds what each set holds to the set around it, from the smallest sets on.
fn pass_up(d: &Nested, sizes: &mut [u32])
    requires { AreTallies d.now.n (length d.now.whole.now.z.items) d.now.whole.now.up.items d.now.n (λ k. 0) sizes.old }
    ensures { AreSizes d.now.n (dual d.now.whole.now) sizes.new }
{
    for k in 0..sizes.len() {
        let size = sizes[k];
        tally(sizes, set_around_set(d, k), size);
    }
}

/// Adds to the number of the set that an entry of `up` names, if it names one.
fn tally(sizes: &mut [u32], entry: u32, more: u32)
    requires named { entry ≤ length sizes.old }
    requires fits { slice_index sizes.old (entry - 1) + more < 2 ^ 32 }
    ensures { sizes.new ≡ tally_with sizes.old entry more }
{
    if entry != 0 {
        sizes[entry as usize - 1] += more;
    }
}
