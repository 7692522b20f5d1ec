//! A dual without the sets that say nothing, those whose number is 0.

ghost use Rattle.std.specs.Prelude.{◌≡◌, ◌+◌, ◌≤◌, ℕ, length, IfOk};
ghost use Rattle.def_matching.specs.Dual.{dual, verdict, AreSmall, IsSmallDual};
ghost use Rattle.qm_solve.specs.Idle.{AreNamed};

use crate::Memory;
use def_matching::{Dual, Verdict};
use qm_dual::{SmallGraph, dual_ok};
use std::alloc::Global;

/// The sets of a dual: their numbers, which are small, and the entries of the vertices and of the sets, each of which
/// names a set or none.
#[derive(Clone, Copy)]
struct Sets<'a> {
    z: &'a [i64],
    up: &'a [u32],
    ghost low: { AreNamed (length z.now) up.now },
    ghost long: { length z.now ≤ length up.now },
    ghost few: { length z.now ≤ 1_073_741_824 },
    ghost small: { AreSmall z.now },
}

/// The dual without the sets whose number is 0, if both have one verdict: so a mistake here could keep sets, and never
/// cost an answer. Linear, but for the check.
pub(crate) fn without_idle_sets(alloc: Global, g: &SmallGraph, d: Dual) -> Result<Dual, Memory>
    requires small { IsSmallDual (dual d) }
    ensures same { IfOk result (λ kept. verdict g.now.graph (dual kept) ≡ verdict g.now.graph (dual d)) }
    ensures small { IfOk result (λ kept. IsSmallDual (dual kept)) }
{
    if d.z.is_empty() {
        return Ok(d);
    }
    let Verdict::Yes { sum: old } = dual_ok(alloc, g, &d)? else {
        return Ok(d);
    };
    let kept = kept_sets(alloc, g, &d, old)?;
    let Verdict::Yes { sum: new } = dual_ok(alloc, g, &kept)? else {
        return Ok(d);
    };
    if new == old { Ok(kept) } else { Ok(d) }
}

/// The dual with new names for the sets that are kept.
fn kept_sets(alloc: Global, g: &SmallGraph, d: &Dual, sum: i128) -> Result<Dual, Memory>
    requires small { IsSmallDual (dual d.now) }
    requires yes { verdict g.now.graph (dual d.now) ≡ Verdict.Yes sum }
    ensures small { IfOk result (λ kept. IsSmallDual (dual kept)) }
{
    let sets = Sets { z: &d.z, up: &d.up };
    let names = new_names(alloc, &sets)?;
    let z = without_zeros(alloc, &sets)?;
    let up = rename(alloc, &sets, &names)?;
    let y = Vec::from_slice(alloc, &d.y)?;
    Ok(Dual { y, z, up })
}

/// What an entry that names a set becomes: the set's number among the kept ones, from 1, or the entry of the least kept
/// set around it.
fn new_names(alloc: Global, sets: &Sets) -> Result<Vec<u32>, Memory>
    ensures { IfOk result (λ names. length names.items ≡ length sets.now.z.now) }
{
    let mut names = vec![in alloc; 0u32; sets.z.len()]?;
    let mut name = 0u32;
    for (k, number) in sets.z.iter().enumerate() {
        if *number != 0 {
            name += 1;
            names[k] = name;
        }
    }
    for k in (0..sets.z.len()).rev() {
        if sets.z[k] == 0 {
            names[k] = new_name(&names, sets.up[sets.up.len() - sets.z.len() + k]);
        }
    }
    Ok(names)
}

/// The new entry for an old one.
fn new_name(names: &[u32], entry: u32) -> u32
    requires { entry ≤ length names.now }
{
    if entry == 0 {
        0
    } else {
        names[entry as usize - 1]
    }
}

/// The entries of the vertices and of the kept sets.
fn rename(alloc: Global, sets: &Sets, names: &[u32]) -> Result<Vec<u32>, Memory>
    requires { length names.now ≡ length sets.now.z.now }
{
    let mut entries = Vec::with_capacity(alloc, sets.up.len())?;
    let vertices = sets.up.len() - sets.z.len();
    for (i, entry) in sets.up.iter().enumerate() {
        if i < vertices || sets.z[i - vertices] != 0 {
            entries.push(new_name(names, *entry))?;
        }
    }
    Ok(entries)
}

/// The numbers that are not 0.
fn without_zeros(alloc: Global, sets: &Sets) -> Result<Vec<i64>, Memory>
    ensures small { IfOk result (λ kept. AreSmall kept.items) }
    ensures fewer { IfOk result (λ kept. length kept.items ≤ length sets.now.z.now) }
{
    let mut kept = Vec::new(alloc);
    for number in sets.z {
        if *number != 0 {
            kept.push(*number)?;
        }
    }
    Ok(kept)
}
