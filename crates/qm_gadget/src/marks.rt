//! The edges that a list chooses at its units.

ghost use Rattle.std.specs.Prelude.{◌≡◌, ◌+◌, ◌*◌, ◌^◌, ◌<◌, ◌≤◌, [], ◌∷◌, ◌++◌, replicate, ℕ, length, slice_index};
ghost use Rattle.std.specs.Prelude.{OnOk, IfOk};
ghost use Rattle.def_math.specs.Tables.{IsRaised};
ghost use Rattle.def_flow.specs.Units.{active_at};
ghost use Rattle.def_flow.specs.Units.{is_active as is_active_end};
ghost use Rattle.gadget_laws.specs.Marks.{places, choice, end_marks, marks_by, units_marks};
ghost use Rattle.gadget_laws.specs.Told.{width_by};
ghost use Rattle.std.proofs.Props.{props};
ghost use Rattle.qm_gadget.specs.Layout.{copies_in, IsAtNodes, AreAtNodes, EndsBelow-prop};
ghost use Rattle.qm_gadget.specs.Marked.{right_marks};

use crate::edges::have_like_signs;
use crate::states::{Stated, bump, is_active};
use def_flow::{ArcUnit, End};
use std::alloc::{AllocError, Global};

/// How many copies each node has, which are few, and how many of them are in use.
#[derive(Clone, Copy)]
struct Copied<'c, 'u> {
    counts: &'c [u32],
    used: &'u [u32],
    ghost same: { length used.now ≡ length counts.now },
    ghost few: { (v : ℕ) → slice_index counts.now v ≤ 2 ^ 27 },
}

/// A unit with its ends at nodes, of which each has few copies.
#[derive(Clone, Copy)]
pub(crate) struct Counted<'c, 'u> {
    pub counts: &'c [u32],
    pub unit: &'u ArcUnit,
    ghost at: { IsAtNodes (length counts.now) unit.now } by { Prim.hlevel (EndsBelow-prop, props) },
    ghost few: { (v : ℕ) → slice_index counts.now v ≤ 2 ^ 27 },
}

/// A unit in its state.
#[derive(Clone, Copy)]
struct Switched<'a> {
    unit: &'a ArcUnit,
    on: bool,
}

/// Adds the number `k` if it is marked.
pub(crate) fn push_mark(m: &mut Vec<u32>, k: u32, mark: bool) -> Result<(), AllocError>
    ensures { OnOk result (m.new.items ≡ m.old.items ++ places k (mark ∷ [])) }
{
    if mark {
        m.push(k)?;
    }
    Ok(())
}

/// Adds the number of the edge at place `i` of `n` edges from `k` on, if there is one to choose.
#[tactic(auto, using(crate::proofs::Numbers::choice_places))]
fn push_choice(m: &mut Vec<u32>, k: u32, some: bool, i: u32, n: u32) -> Result<(), AllocError>
    requires { k + n < 2 ^ 32 }
    ensures { OnOk result (m.new.items ≡ m.old.items ++ places k (choice some i n)) }
{
    if some && i < n {
        m.push(k + i)?;
    }
    Ok(())
}

/// Adds the edge of an end to the first copy that is not in use, if the end is active.
fn push_end_marks(
    m: &mut Vec<u32>,
    k: u32,
    copied: &Copied,
    end: &End,
    on: bool,
) -> Result<(), AllocError>
    requires at { end.now.node < length copied.now.counts.now }
    requires few { k ≤ 2 ^ 28 }
    ensures { OnOk result
        (m.new.items ≡ m.old.items ++ places k
        (end_marks (copies_in copied.now.counts.now) (copies_in copied.now.used.now)
        (is_active_end on end.now) end.now)) }
{
    let node = end.node as usize;
    push_choice(
        m,
        k,
        is_active(end, on),
        copied.used[node],
        copied.counts[node],
    )
}

/// Adds the chosen edges of the second end of a unit, and of the edge inside it if the signs are alike.
#[tactic(auto, using(gadget_laws::proofs::Pick::choice_length, crate::proofs::Numbers::places_two))]
fn push_right_marks(
    m: &mut Vec<u32>,
    k: u32,
    copied: &Copied,
    switched: &Switched,
    right: &End,
) -> Result<(), AllocError>
    requires at { right.now.node < length copied.now.counts.now }
    requires few { k ≤ 2 ^ 28 }
    ensures { OnOk result
        (m.new.items ≡ m.old.items ++ places k
        (right_marks (copies_in copied.now.counts.now) (copies_in copied.now.used.now)
        switched.now.on switched.now.unit.now.left right.now)) }
{
    push_end_marks(m, k, copied, right, switched.on)?;
    let left = &switched.unit.left;
    if have_like_signs(left, right) {
        push_mark(
            m,
            k + copied.counts[right.node as usize],
            !is_active(left, switched.on),
        )?;
    }
    Ok(())
}

/// Adds the chosen edges of a unit, the first of which is `k`, and counts the copies that come into use.
fn push_unit_marks(
    m: &mut Vec<u32>,
    k: u32,
    counted: &Counted,
    used: &mut [u32],
    on: bool,
) -> Result<(), AllocError>
    requires same { length used.old ≡ length counted.now.counts.now }
    requires few { k ≤ 2 ^ 27 }
    requires small { (v : ℕ) → slice_index used.old v ≤ 2 ^ 30 }
    ensures marks { OnOk result
        (m.new.items ≡ m.old.items ++ places k
        (marks_by (copies_in counted.now.counts.now) (copies_in used.old)
        on counted.now.unit.now.left counted.now.unit.now.right)) }
    ensures used { OnOk result (IsRaised (λ v. active_at v counted.now.unit.now on) used.old used.new) }
{
    let left = &counted.unit.left;
    push_end_marks(
        m,
        k,
        &Copied {
            counts: counted.counts,
            used: &*used,
        },
        left,
        on,
    )?;
    bump(used, left, on);
    let after = k + counted.counts[left.node as usize];
    match &counted.unit.right {
        None => push_mark(m, after, !is_active(left, on)),
        Some(right) => {
            push_right_marks(
                m,
                after,
                &Copied {
                    counts: counted.counts,
                    used: &*used,
                },
                &Switched {
                    unit: counted.unit,
                    on,
                },
                right,
            )?;
            bump(used, right, on);
            Ok(())
        }
    }
}

/// How many edges a unit has.
pub(crate) fn width_of(counted: &Counted) -> u32
    ensures { result
        ≡ width_by (copies_in counted.now.counts.now) counted.now.unit.now.left counted.now.unit.now.right }
{
    let unit = counted.unit;
    let left = counted.counts[unit.left.node as usize];
    match &unit.right {
        None => left + 1,
        Some(right) => {
            let right_count = counted.counts[right.node as usize];
            if have_like_signs(&unit.left, right) {
                left + (right_count + 1)
            } else {
                left + right_count
            }
        }
    }
}

/// Units, each in a state, over nodes with copies, of which each node has few.
#[derive(Clone, Copy)]
pub(crate) struct Laid<'a> {
    pub counts: &'a [u32],
    pub stated: Stated<'a>,
    ghost at: { AreAtNodes (length counts.now) stated.units.now } by { Prim.hlevel (EndsBelow-prop, props) },
    ghost few: { (v : ℕ) → slice_index counts.now v ≤ 2 ^ 27 },
}

/// Adds the chosen edges of all units, and gives the number of the first edge past them.
pub(crate) fn push_units_marks(
    alloc: Global,
    m: &mut Vec<u32>,
    laid: &Laid,
) -> Result<u32, AllocError>
    requires { length (units_marks (copies_in laid.now.counts.now) (λ v. 0) laid.now.stated.units.now
        laid.now.stated.ons.now) ≤ 2 ^ 26 }
    ensures marks { OnOk result
        (m.new.items ≡ m.old.items ++ places 0 (units_marks (copies_in laid.now.counts.now) (λ v. 0)
        laid.now.stated.units.now laid.now.stated.ons.now)) }
    ensures past { IfOk result (λ past. past ≡ length (units_marks (copies_in laid.now.counts.now) (λ v. 0)
        laid.now.stated.units.now laid.now.stated.ons.now)) }
{
    let mut used = vec![in alloc; 0u32; laid.counts.len()]?;
    push_all_marks(m, laid, &mut used)
}

/// The same, where copies are in use before.
fn push_all_marks(m: &mut Vec<u32>, laid: &Laid, used: &mut [u32]) -> Result<u32, AllocError>
    requires start { used.old ≡ replicate (length laid.now.counts.now) 0 }
    requires short { length (units_marks (copies_in laid.now.counts.now) (copies_in used.old)
        laid.now.stated.units.now laid.now.stated.ons.now) ≤ 2 ^ 26 }
    ensures marks { OnOk result
        (m.new.items ≡ m.old.items ++ places 0 (units_marks (copies_in laid.now.counts.now) (copies_in used.old)
        laid.now.stated.units.now laid.now.stated.ons.now)) }
    ensures past { IfOk result (λ past.
        past ≡ length (units_marks (copies_in laid.now.counts.now) (copies_in used.old)
        laid.now.stated.units.now laid.now.stated.ons.now)) }
{
    let mut k = 0;
    for (i, unit) in laid.stated.units.iter().enumerate() {
        let counted = Counted {
            counts: laid.counts,
            unit,
        };
        push_unit_marks(m, k, &counted, used, laid.stated.ons[i])?;
        k += width_of(&counted);
    }
    Ok(k)
}
