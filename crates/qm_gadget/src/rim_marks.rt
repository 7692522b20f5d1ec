//! The edges that a list chooses at the rim.

ghost use Rattle.std.specs.Prelude.{◌≡◌, ◌+◌, ◌*◌, ◌^◌, ◌≤◌, [], ◌∷◌, ◌++◌, not, ◌&&◌, cond, length, OnOk, IfOk};
ghost use Rattle.def_flow.specs.Units.{is_active as is_active_end};
ghost use Rattle.gadget_laws.specs.Marks.{places, rim_states, with_state, differ};
ghost use Rattle.qm_gadget.specs.Marked.{mark_if, rim_by, turn_marks};

use crate::marks::push_mark;
use crate::states::{Stated, is_active};
use def_flow::ArcUnit;
use std::alloc::{AllocError, Global};

/// Whether each unit with one end waits for a mate at the rim.
pub(crate) fn rim_states_of(alloc: Global, stated: &Stated) -> Result<Vec<bool>, AllocError>
    ensures { IfOk result (λ states. states.items ≡ rim_states stated.now.units.now stated.now.ons.now) }
{
    let mut states = Vec::new(alloc);
    for (k, unit) in stated.units.iter().enumerate() {
        push_rim_state(&mut states, unit, stated.ons[k])?;
    }
    Ok(states)
}

/// Adds whether a unit waits at the rim, if it has one end.
fn push_rim_state(states: &mut Vec<bool>, unit: &ArcUnit, on: bool) -> Result<(), AllocError>
    ensures { OnOk result
        (states.new.items ≡ states.old.items ++ with_state unit.now.right (is_active_end on unit.now.left) []) }
{
    if unit.right.is_none() {
        states.push(is_active(&unit.left, on))?;
    }
    Ok(())
}

/// What stands before a vertex at the rim: whether a vertex is there, and whether it waits for a mate.
#[derive(Clone, Copy)]
struct Before {
    there: bool,
    waits: bool,
}

/// Adds the chosen edges at the rim, the first of which is `first`.
pub(crate) fn push_rim_marks(
    m: &mut Vec<u32>,
    first: u32,
    lone: bool,
    states: &[bool],
) -> Result<(), AllocError>
    requires { first + 4 * length states.now ≤ 2 ^ 28 }
    ensures { OnOk result (m.new.items ≡ m.old.items ++ places first (rim_by lone lone states.now)) }
{
    let mut k = first;
    let mut there = lone;
    let mut waits = lone;
    for (i, here) in states.iter().enumerate() {
        k = push_rim_turn(m, k, Before { there, waits }, *here, i + 1 == states.len())?;
        waits = are_different(waits, *here);
        there = true;
    }
    Ok(())
}

/// Adds the chosen edges of one vertex at the rim and of the pair after it, and gives the number past them.
fn push_rim_turn(
    m: &mut Vec<u32>,
    k: u32,
    before: Before,
    here: bool,
    last: bool,
) -> Result<u32, AllocError>
    requires { k ≤ 2 ^ 28 }
    ensures marks { OnOk result
        (m.new.items ≡ m.old.items ++ places k (turn_marks before.there before.waits here last)) }
    ensures past { IfOk result (λ past. past ≡ k + length (turn_marks before.there before.waits here last)) }
{
    push_if(m, k, before.there, before.waits && here)?;
    let next = k + width_if(before.there);
    if last {
        return Ok(next);
    }
    push_pair_marks(m, next, before, here)?;
    Ok(next + 2 + width_if(before.there))
}

/// How many edges there are where one may be missing.
fn width_if(there: bool) -> u32
    ensures value { result ≡ cond there 1 0 }
    ensures small { result ≤ 1 }
{
    if there { 1 } else { 0 }
}

fn are_different(a: bool, b: bool) -> bool
    ensures { result ≡ differ a b }
{
    a != b
}

/// Adds an edge that may be missing, if it is chosen.
fn push_if(m: &mut Vec<u32>, k: u32, there: bool, mark: bool) -> Result<(), AllocError>
    ensures { OnOk result (m.new.items ≡ m.old.items ++ places k (mark_if there mark)) }
{
    if there { push_mark(m, k, mark) } else { Ok(()) }
}

/// Adds the chosen edges of the pair of vertices after one at the rim.
fn push_pair_marks(m: &mut Vec<u32>, k: u32, before: Before, here: bool) -> Result<(), AllocError>
    requires { k ≤ 2 ^ 30 }
    ensures { OnOk result
        (m.new.items ≡ m.old.items ++ places k
        ((not before.waits && here) ∷ mark_if before.there (before.waits && not here)
        ++ not (differ before.waits here) ∷ [])) }
{
    push_mark(m, k, !before.waits && here)?;
    push_if(m, k + 1, before.there, before.waits && !here)?;
    push_mark(
        m,
        k + 1 + width_if(before.there),
        !are_different(before.waits, here),
    )
}
