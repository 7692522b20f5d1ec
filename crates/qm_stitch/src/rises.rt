//! The floors that have to rise where lengths double an edge.

ghost use Rattle.std.specs.Prelude.{◌≡◌, ◌↔◌, ◌<◌, ◌≤◌, ◌^◌, ℕ, length, IfOk, IsTrue, Some};
ghost use Rattle.def_flow.specs.declared.limits.TheConstants.{MAX_FLOOR};
ghost use Rattle.def_layout.specs.Lengths.{AreLengths};
ghost use Rattle.def_layout.specs.Layouts.{gluing_of, layout_of};
ghost use Rattle.def_layoutnet.specs.MeshLayouts.{IsSomeLayout};
ghost use Rattle.def_remesh.specs.NewPoints.{lengths_in};
ghost use Rattle.def_remesh.specs.Remeshed.{AreCoarse, AreDoubled};
ghost use Rattle.def_remesh.specs.Rises.{AreNeeded};
ghost use Rattle.qm_stitch.specs.Lengthened.{gluing_in};
ghost use Rattle.qm_stitch.specs.Raised.{AreFloors, AreOrdered, AreRisesUpto, IsFloorFor, IsFloorOf};
ghost use Rattle.qm_stitch.specs.Raised.{IsShortTight};
ghost use Rattle.qm_stitch.specs.Remedies.{FollowCheapest};

use crate::build::tables;
use crate::cheapest::cheapest_arcs;
use crate::keyed::{Keyed, keys_of};
use crate::marked::Marked;
use crate::numbered::Numbered;
use crate::priced::Priced;
use crate::remedies::remedies;
use crate::remedy::Remedy;
use crate::tight::tight_arcs;
use def_certtext::Rise;
use def_flow::MAX_FLOOR;
use def_layout::TMesh;
use std::alloc::{AllocError, Global};

/// The floors that rise for lengths that double an edge. From each doubled pair one of its edges is taken, and one run
/// of arcs along it, those whose short arcs cost least to be one edge longer by these prices: the floors of these arcs
/// get one more than their lengths. Where no run along doubled edges has a short arc, each short arc gets the greatest
/// floor. Of the cost of `tight_arcs`.
pub fn needed_rises(
    alloc: Global,
    t: &TMesh,
    lengths: &[u64],
    prices: &[i64],
) -> Result<Vec<Rise>, AllocError>
    requires layout { IsSomeLayout (layout_of t.now) }
    requires long { length lengths.now ≡ length t.now.arcs.items }
    requires lengths { AreLengths (gluing_of (layout_of t.now)) (lengths_in lengths.now) }
    requires few { length lengths.now < 2 ^ 32 }
    requires coarse { AreCoarse (layout_of t.now) lengths.now }
    requires doubled { AreDoubled (layout_of t.now) lengths.now }
    requires prices { length prices.now ≡ length lengths.now }
    ensures { IfOk result (λ rises. AreNeeded (gluing_of (layout_of t.now)) (lengths_in lengths.now) rises.items) }
{
    let tables = tables(alloc, t, lengths)?;
    let numbered = Numbered { t, tables: &tables };
    let keys = keys_of(alloc, &numbered)?;
    let keyed = Keyed {
        numbered,
        keys: &keys,
    };
    let priced = Priced {
        keyed,
        lengths,
        prices,
    };
    cheapest_rises(alloc, &priced)
}

/// The rises by the cheapest remedy of each doubled pair.
fn cheapest_rises(alloc: Global, priced: &Priced) -> Result<Vec<Rise>, AllocError>
    ensures needed { IfOk result (λ rises.
        AreNeeded (gluing_in priced.now.keyed.numbered) (lengths_in priced.now.lengths.now) rises.items) }
    ensures cheapest { IfOk result (λ rises. FollowCheapest (layout_of priced.now.keyed.numbered.t.now)
        (lengths_in priced.now.lengths.now) priced.now.prices.now rises.items) }
{
    let remedies = remedies(alloc, priced)?;
    let some = is_any(&remedies);
    let chosen = cheapest_arcs(alloc, &priced.keyed.numbered, remedies)?;
    let marked = Marked {
        lengths: priced.lengths,
        tight: &chosen,
    };
    rises_by(alloc, &marked, some)
}

/// Whether there is a remedy.
fn is_any(remedies: &[Remedy]) -> bool
    ensures { IsTrue result ↔ (0 < length remedies.now) }
{
    !remedies.is_empty()
}

/// The rises of all arcs.
fn rises_by(alloc: Global, marked: &Marked, some: bool) -> Result<Vec<Rise>, AllocError>
    requires { length marked.now.lengths.now < 2 ^ 32 }
    ensures { IfOk result (λ rises. AreRisesUpto some marked.now.tight.now marked.now.lengths.now
        (length marked.now.lengths.now) rises.items) }
{
    let mut rises = Vec::new(alloc);
    for arc in 0..marked.lengths.len() {
        if let Some(floor) = floor_of(marked, some, arc) {
            rises.push(Rise {
                arc: arc as u32,
                floor,
            })?;
        }
    }
    Ok(rises)
}

/// Whether floors rise as they have to for these lengths. Of the cost of `tight_arcs`.
pub fn are_needed(
    alloc: Global,
    t: &TMesh,
    lengths: &[u64],
    rises: &[Rise],
) -> Result<bool, AllocError>
    requires layout { IsSomeLayout (layout_of t.now) }
    requires long { length lengths.now ≡ length t.now.arcs.items }
    requires lengths { AreLengths (gluing_of (layout_of t.now)) (lengths_in lengths.now) }
    requires coarse { AreCoarse (layout_of t.now) lengths.now }
    ensures { IfOk result (λ are.
        IsTrue are ↔ AreNeeded (gluing_of (layout_of t.now)) (lengths_in lengths.now) rises.now) }
{
    let tables = tables(alloc, t, lengths)?;
    let numbered = Numbered { t, tables: &tables };
    let keys = keys_of(alloc, &numbered)?;
    let keyed = Keyed {
        numbered,
        keys: &keys,
    };
    let tight = tight_arcs(alloc, &keyed)?;
    let marked = Marked {
        lengths,
        tight: &tight,
    };
    Ok(are_rises(&marked, is_some_short(&marked), rises))
}

/// Whether there are rises, in order, each that of its arc.
fn are_rises(marked: &Marked, some: bool, rises: &[Rise]) -> bool
    ensures { IsTrue result ↔ ((0 < length rises.now) × AreOrdered rises.now
        × AreFloors some marked.now.tight.now marked.now.lengths.now rises.now) }
{
    !rises.is_empty() && are_ordered(rises) && are_floors(marked, some, rises)
}

/// Whether a tight arc is shorter than the greatest floor.
fn is_some_short(marked: &Marked) -> bool
    ensures { IsTrue result ↔ ((arc : ℕ) × (arc < length marked.now.lengths.now)
        × IsShortTight marked.now.tight.now marked.now.lengths.now arc) }
{
    for arc in 0..marked.lengths.len() {
        if is_short_tight(marked, arc) {
            return true;
        }
    }
    false
}

/// Whether an arc is tight and shorter than the greatest floor.
fn is_short_tight(marked: &Marked, arc: usize) -> bool
    requires { arc < length marked.now.lengths.now }
    ensures { IsTrue result ↔ IsShortTight marked.now.tight.now marked.now.lengths.now arc }
{
    marked.tight[arc] && is_short(marked.lengths[arc])
}

/// Whether a length is less than the greatest floor.
pub(crate) fn is_short(length: u64) -> bool
    ensures { IsTrue result ↔ (length < MAX_FLOOR) }
{
    length < u64::from(MAX_FLOOR)
}

/// The floor to which that of an arc rises.
fn floor_of(marked: &Marked, some: bool, arc: usize) -> Option<u32>
    requires { arc < length marked.now.lengths.now }
    ensures { (floor : ℕ) → (result ≡ Some floor)
        ↔ IsFloorOf some marked.now.tight.now marked.now.lengths.now arc floor }
{
    floor_for(marked.lengths[arc], marked.tight[arc], some)
}

/// The floor to which that of an arc rises, where it does: with `some`, a tight arc is short.
fn floor_for(length: u64, tight: bool, some: bool) -> Option<u32>
    ensures { (floor : ℕ) → (result ≡ Some floor) ↔ IsFloorFor some tight length floor }
{
    if !is_short(length) || (some && !tight) {
        return None;
    }
    if some {
        Some(length as u32 + 1)
    } else {
        Some(MAX_FLOOR)
    }
}

/// Whether the arcs of rises are in order, each once.
fn are_ordered(rises: &[Rise]) -> bool
    ensures { IsTrue result ↔ AreOrdered rises.now }
{
    for k in 1..rises.len() {
        if rises[k - 1].arc >= rises[k].arc {
            return false;
        }
    }
    true
}

/// Whether each rise is that of its arc.
fn are_floors(marked: &Marked, some: bool, rises: &[Rise]) -> bool
    ensures { IsTrue result ↔ AreFloors some marked.now.tight.now marked.now.lengths.now rises.now }
{
    for rise in rises {
        let arc = rise.arc as usize;
        if arc >= marked.lengths.len() || floor_of(marked, some, arc) != Some(rise.floor) {
            return false;
        }
    }
    true
}
