//! The parameters of the places of sides.

ghost use Rattle.std.specs.Prelude.{◌≡◌, ◌≤◌, ◌<◌, ◌+◌, ◌-◌, ℕ, cond, length, IfOk, OnOk};
ghost use Rattle.def_layout.specs.Arcs.{long_at};
ghost use Rattle.def_layout.specs.Gluings.{Way};
ghost use Rattle.def_layout.specs.Lengths.{size};
ghost use Rattle.def_layout.specs.Layouts.{gluing_of, way_number, layout_of};
ghost use Rattle.def_remesh.specs.NewPoints.{lengths_in};
ghost use Rattle.def_remesh.specs.Placings.{rim_at, side_parameter, IsRim};
ghost use Rattle.qm_place.specs.OnArcs.{spacing_on};
ghost use Rattle.qm_place.specs.Pushed.{on_arc, ArePushed, IsKept};

use crate::arc_places::ArcPlaces;
use crate::arcs::parameter_of;
use crate::ways::EDGE;
use def_layout::SideArc;
use def_mesh::MAX_FACES;
use def_remesh::Rim;
use qm_offsets::side_of;
use std::alloc::{AllocError, Global};

/// The new sizes of patches, and the parameters of the places of their sides.
#[derive(Drop)]
pub(crate) struct Sides {
    pub rims: Vec<Rim>,
    pub parameters: Vec<u64>,
}

/// The sizes of all patches and the parameters of their sides. Linear in the new vertices on these.
pub(crate) fn sides_of(alloc: Global, places: &ArcPlaces) -> Result<Sides, AllocError>
    ensures count { IfOk result (λ sides. length sides.rims.items ≡ length places.now.t.now.patches.items) }
    ensures rims { IfOk result (λ sides. (patch : ℕ) → patch < length places.now.t.now.patches.items
        → IsRim (layout_of places.now.t.now) (lengths_in places.now.lengths.now) (spacing_on places.now) patch
        (rim_at sides.rims.items patch) sides.parameters.items) }
{
    let patches = places.t.patches.len();
    let mut rims = Vec::with_capacity(alloc, patches)?;
    let mut parameters = Vec::new(alloc);
    for patch in 0..patches {
        let rim = push_patch(&mut parameters, places, patch)?;
        rims.push(rim)?;
    }
    Ok(Sides { rims, parameters })
}

/// Puts the parameters of the four sides of a patch behind the others.
fn push_patch(
    parameters: &mut Vec<u64>,
    places: &ArcPlaces,
    patch: usize,
) -> Result<Rim, AllocError>
    requires low { patch < length places.now.t.now.patches.items }
    ensures rim { IfOk result (λ rim. IsRim (layout_of places.now.t.now) (lengths_in places.now.lengths.now)
        (spacing_on places.now) patch rim parameters.new.items) }
    ensures kept { OnOk result (IsKept parameters.old.items parameters.new.items) }
{
    let begin = parameters.len();
    push_side(parameters, places, patch, 0)?;
    let wide = parameters.len() - begin;
    push_side(parameters, places, patch, 1)?;
    let high = parameters.len() - begin - wide;
    push_side(parameters, places, patch, 2)?;
    push_side(parameters, places, patch, 3)?;
    Ok(Rim {
        wide: wide as u32,
        high: high as u32,
        begin,
    })
}

/// Puts the parameters of the places of a side behind the others: 0 is south, 1 east, 2 north and 3 west. North and
/// west run against the parameter.
fn push_side(
    parameters: &mut Vec<u64>,
    places: &ArcPlaces,
    patch: usize,
    side: usize,
) -> Result<(), AllocError>
    requires low { patch < length places.now.t.now.patches.items }
    requires side { side < 4 }
    ensures { OnOk result ((way : Way) → way_number way ≡ side → ArePushed parameters.old.items parameters.new.items
        (size (gluing_of (layout_of places.now.t.now)) (lengths_in places.now.lengths.now) patch way)
        (side_parameter (layout_of places.now.t.now) (lengths_in places.now.lengths.now) (spacing_on places.now) patch
        way)) }
{
    let back = side >= 2;
    let t = places.t;
    let whole = old_size(places, patch, side);
    let mut before = 0;
    for used in side_of(t, patch, side) {
        let old = t.arcs[used.arc as usize].darts.len() as u64;
        let start = start_of(whole, before, old, back);
        push_arc(parameters, places, start, *used, back)?;
        before += old;
    }
    Ok(())
}

/// How much of a side lies before an arc, counted from the end from which its parameter counts.
fn start_of(whole: u64, before: u64, old: u64, back: bool) -> u64
    requires { before + old ≤ whole }
    ensures { result ≡ cond back (whole - before - old) before }
{
    if back { whole - before - old } else { before }
}

/// How many old edges a side has.
fn old_size(places: &ArcPlaces, patch: usize, side: usize) -> u64
    requires low { patch < length places.now.t.now.patches.items }
    requires side { side < 4 }
    ensures { (way : Way) → way_number way ≡ side
        → result ≡ size (gluing_of (layout_of places.now.t.now)) (long_at (layout_of places.now.t.now).arcs) patch way }
{
    if side % 2 == 0 {
        u64::from(places.t.patches[patch].w)
    } else {
        u64::from(places.t.patches[patch].h)
    }
}

/// Puts the parameters of the places of an arc behind the others, without that of its end, where so many old edges lie
/// before it.
fn push_arc(
    parameters: &mut Vec<u64>,
    places: &ArcPlaces,
    before: u64,
    used: SideArc,
    back: bool,
) -> Result<(), AllocError>
    requires arc { used.arc < length places.now.t.now.arcs.items }
    requires few { before ≤ MAX_FACES }
    ensures { OnOk result (ArePushed parameters.old.items parameters.new.items
        (lengths_in places.now.lengths.now used.arc) (on_arc (spacing_on places.now) before
        (lengths_in places.now.lengths.now used.arc) used back)) }
{
    let new = places.lengths[used.arc as usize];
    let forward = if back { !used.forward } else { used.forward };
    let counted = SideArc {
        arc: used.arc,
        forward,
    };
    for offset in 0..new {
        let k = if back { new - offset } else { offset };
        parameters.push(EDGE * before + parameter_of(places, counted, k))?;
    }
    Ok(())
}
