//! The states of units, and how many active ends there are at each node.

ghost use Rattle.std.specs.Prelude.{◌≡◌, ◌+◌, ◌-◌, ◌*◌, ◌%◌, ◌^◌, ◌<◌, ◌≤◌, ◌++◌, ◌==◌, [], ◌∷◌, ℕ, cond, length};
ghost use Rattle.std.specs.Prelude.{slice_index, map, replicate, OnOk, IfOk};
ghost use Rattle.def_math.specs.Tables.{IsRaised};
ghost use Rattle.def_flow.specs.Units.{active_at, run, rim_active, alone_active};
ghost use Rattle.def_flow.specs.Units.{is_active as is_active_end};
ghost use Rattle.std.proofs.Props.{props};
ghost use Rattle.qm_gadget.specs.Layout.{AreAtNodes, EndsBelow-prop, IsAtNodes};
ghost use Rattle.def_flow.specs.Units.{states_over};
ghost use Rattle.qm_gadget.specs.Over.{end_active, AreCounts};

use def_flow::{ArcUnit, End};
use std::alloc::{AllocError, Global};

/// How many units of each arc are on at the list itself.
pub(crate) fn downs_of(alloc: Global, caps: &[u32]) -> Result<Vec<u32>, AllocError>
    requires { (k : ℕ) → k < length caps.now → 2 ≤ slice_index caps.now k }
    ensures { IfOk result (λ downs. downs.items ≡ map (λ cap. cap - 2) caps.now) }
{
    let mut downs = Vec::with_capacity(alloc, caps.len())?;
    for cap in caps {
        downs.push(*cap - 2)?;
    }
    Ok(downs)
}

/// The states of all units, where of each arc so many are on.
pub(crate) fn states_of(alloc: Global, caps: &[u32], ups: &[u32]) -> Result<Vec<bool>, AllocError>
    requires { length caps.now ≡ length ups.now }
    ensures { IfOk result (λ ons. ons.items ≡ states_over caps.now ups.now) }
{
    let mut ons = Vec::new(alloc);
    for (k, cap) in caps.iter().enumerate() {
        push_run(&mut ons, ups[k], *cap)?;
    }
    Ok(ons)
}

/// Adds the states of so many units, of which the first `up` are on.
#[tactic(auto, using(crate::proofs::Fans::run_suc, crate::proofs::Fans::two_parts))]
fn push_run(ons: &mut Vec<bool>, up: u32, cap: u32) -> Result<(), AllocError>
    ensures { OnOk result (ons.new.items ≡ ons.old.items ++ run up cap) }
{
    for k in 0..cap {
        push_state(ons, k < up)?;
    }
    Ok(())
}

/// Adds a state.
fn push_state(ons: &mut Vec<bool>, on: bool) -> Result<(), AllocError>
    ensures { OnOk result (ons.new.items ≡ ons.old.items ++ on ∷ []) }
{
    ons.push(on)?;
    Ok(())
}

/// Whether an end is active at a unit in this state.
pub(crate) fn is_active(end: &End, on: bool) -> bool
    ensures { result ≡ is_active_end on end.now }
{
    end.plus == on
}

/// Units between so many nodes, each in a state. There are few.
#[derive(Clone, Copy)]
pub(crate) struct Stated<'a> {
    pub nodes: u32,
    pub units: &'a [ArcUnit],
    pub ons: &'a [bool],
    ghost at: { AreAtNodes nodes units.now } by { Prim.hlevel (EndsBelow-prop, props) },
    ghost each: { length units.now ≡ length ons.now },
    ghost few: { length units.now ≤ 2 ^ 25 },
}

/// How many active unit ends there are at each node.
pub(crate) fn count_active(alloc: Global, stated: &Stated) -> Result<Vec<u32>, AllocError>
    ensures { IfOk result (λ counts.
        AreCounts stated.now.nodes stated.now.units.now stated.now.ons.now counts.items) }
{
    let mut counts = vec![in alloc; 0u32; stated.nodes as usize]?;
    bump_all(&mut counts, stated);
    Ok(counts)
}

/// Adds to the number of each node its active unit ends.
fn bump_all(counts: &mut [u32], stated: &Stated)
    requires { counts.old ≡ replicate stated.now.nodes 0 }
    ensures { AreCounts stated.now.nodes stated.now.units.now stated.now.ons.now counts.new }
{
    for (k, unit) in stated.units.iter().enumerate() {
        bump_unit(counts, unit, stated.ons[k]);
    }
}

/// Adds to the numbers of nodes the active ends of a unit.
fn bump_unit(counts: &mut [u32], unit: &ArcUnit, on: bool)
    requires small { (v : ℕ) → slice_index counts.old v ≤ 2 ^ 30 }
    requires at { IsAtNodes (length counts.old) unit.now }
    ensures { IsRaised (λ v. active_at v unit.now on) counts.old counts.new }
{
    bump(counts, &unit.left, on);
    if let Some(right) = &unit.right {
        bump(counts, right, on);
    }
}

/// Adds one to the number of the node of an end, if it is active.
pub(crate) fn bump(counts: &mut [u32], end: &End, on: bool)
    requires small { (v : ℕ) → slice_index counts.old v ≤ 2 ^ 30 + 1 }
    requires at { end.now.node < length counts.old }
    ensures { IsRaised (end_active end.now on) counts.old counts.new }
{
    if is_active(end, on) {
        counts[end.node as usize] += 1;
    }
}

/// Whether an odd number of units with one end are active.
pub(crate) fn is_rim_odd(stated: &Stated) -> bool
    ensures { result ≡ (rim_active stated.now.units.now stated.now.ons.now % 2 == 1) }
{
    let mut odd = false;
    for (k, unit) in stated.units.iter().enumerate() {
        odd = odd != is_rim_active(unit, stated.ons[k]);
    }
    odd
}

/// Whether a unit has one end, and this is active.
fn is_rim_active(unit: &ArcUnit, on: bool) -> bool
    ensures { cond result 1 0 ≡ alone_active unit.now.left unit.now.right on }
{
    match &unit.right {
        None => is_active(&unit.left, on),
        Some(_) => false,
    }
}
