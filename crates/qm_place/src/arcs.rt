//! The parameters of the places of arcs, evenly spaced or by shares.

ghost use Rattle.std.specs.Prelude.{◌≡◌, ◌<◌, ◌≤◌, ◌*◌, ◌/◌, true, length, Some};
ghost use Rattle.def_layout.specs.Arcs.{long_at};
ghost use Rattle.def_layout.specs.Layouts.{layout_of};
ghost use Rattle.def_written.specs.Places.{ONE};
ghost use Rattle.def_remesh.specs.NewPoints.{lengths_in};
ghost use Rattle.qm_place.specs.OnArcs.{spacing_on};

use crate::arc_places::ArcPlaces;
use crate::ways::EDGE;
use def_layout::SideArc;
use def_mesh::MAX_FACES;
use def_remesh::Spaced;

/// The parameter of place k of an arc, counted from its beginning, forward, or from its end.
#[tactic(auto, using(crate::proofs::Rims::read_short))]
pub(crate) fn parameter_of(places: &ArcPlaces, used: SideArc, k: u32) -> u64
    requires arc { used.arc < length places.now.t.now.arcs.items }
    requires place { k ≤ lengths_in places.now.lengths.now used.arc }
    ensures value { result ≡ (spacing_on places.now).parameter_of used.arc used.forward k }
    ensures low { result ≤ ONE * MAX_FACES }
{
    let arc = used.arc as usize;
    let old = places.t.arcs[arc].darts.len() as u64;
    let new = places.lengths[arc];
    match places.spaced {
        None => part_of_arc(k, old, new),
        Some(spaced) => {
            if used.forward {
                shared_part(places, spaced, arc, k)
            } else {
                EDGE * old - shared_part(places, spaced, arc, new - k)
            }
        }
    }
}

/// The parameter of place k of an arc, from its beginning, by shares.
#[tactic(auto, using(crate::proofs::Rims::read_short))]
fn shared_part(places: &ArcPlaces, spaced: &Spaced, arc: usize, k: u32) -> u64
    requires spaced { places.now.spaced.now ≡ Some spaced.now }
    requires arc { arc < length places.now.t.now.arcs.items }
    requires place { k ≤ lengths_in places.now.lengths.now arc }
    ensures value { result ≡ (spacing_on places.now).parameter_of arc true k }
    ensures low { result ≤ ONE * long_at (layout_of places.now.t.now).arcs arc }
{
    if k == 0 {
        return 0;
    }
    if k == places.lengths[arc] {
        return EDGE * places.t.arcs[arc].darts.len() as u64;
    }
    spaced.parameters[(places.along.begin[arc] + k - 1) as usize]
}

/// The parameter of place k of an arc, from the end from which k counts, evenly.
#[tactic(auto, using(crate::proofs::Pushes::part_most))]
fn part_of_arc(k: u32, old: u64, new: u32) -> u64
    requires place { (k ≤ new) × (0 < new) }
    requires short { old ≤ MAX_FACES }
    ensures value { result ≡ ONE * k * old / new }
    ensures low { result ≤ ONE * old }
{
    let way = u128::from(EDGE) * u128::from(k) * u128::from(old);
    (way / u128::from(new)) as u64
}
