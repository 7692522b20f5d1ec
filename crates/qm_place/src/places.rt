//! The places of all new vertices.

ghost use Rattle.std.specs.Prelude.{◌≡◌, ◌<◌, ◌≤◌, ◌-◌, ◌*◌, ◌^◌, ℕ, [], length, slice_index_or, IfOk};
ghost use Rattle.def_math.specs.Counts.{count_below};
ghost use Rattle.def_mesh.specs.Faces.{Faces};
ghost use Rattle.def_mesh.specs.Vertices.{vertex_count};
ghost use Rattle.def_layout.specs.Lengths.{wide, high, AreLengths};
ghost use Rattle.def_layout.specs.Layouts.{gluing_of, layout_of};
ghost use Rattle.def_written.specs.NewFaces.{face_count};
ghost use Rattle.def_written.specs.Numbers.{vertices};
ghost use Rattle.def_remesh.specs.NewPoints.{lengths_in};
ghost use Rattle.def_remesh.specs.NewSoup.{spaced_place};
ghost use Rattle.def_remesh.specs.Numberings.{AreRunStarts};
ghost use Rattle.def_remesh.specs.Placings.{rim_at, shares_in, ArePlaces, IsMeshLayout, IsSpaced};
ghost use Rattle.def_remesh.specs.Placings.{LiesBetween};
ghost use Rattle.def_remesh.specs.declared.limits.TheConstants.{MAX_NEW_FACES};
ghost use Rattle.qm_place.specs.ArcTables.{AreFine};
ghost use Rattle.qm_place.specs.Spots.{inner_of};

use crate::arc_places::ArcPlaces;
use crate::axes::place_there;
use crate::find::Near;
use crate::old::OldMesh;
use crate::placed::Placed;
use crate::sides::sides_of;
use crate::spacing::shared_parameters;
use def_layout::TMesh;
use def_remesh::{DartShares, PlaceTables, Rim, RunStarts, Spaced};
use def_text::Micro;
use qm_mesh::Mesh;
use qm_offsets::{inner_points, no_starts, push_start, short_lengths};
use std::alloc::{AllocError, Global};
use std::marker::Model;

/// The places of the vertices of a new mesh. Contracts see the tables.
#[derive(Debug, Drop)]
pub struct Places {
    tables: PlaceTables,
}

impl Model for Places {
    ghost use Rattle.def_remesh.specs.declared.places.PlaceTables.{PlaceTables};

    ghost Value = { PlaceTables };

    ghost view = { λ p. p.tables };

    ghost invariant = { λ p. Unit {0} };
}

/// What tells the places of the vertices of a layout with these lengths, where the points of arcs are spaced by shares,
/// or evenly. Linear in the arcs, their darts where there are shares, the patches and the new vertices on the sides of
/// patches.
pub fn placer(
    alloc: Global,
    mesh: &Mesh,
    t: &TMesh,
    x: &[u64],
    shares: Option<DartShares>,
) -> Result<Places, AllocError>
    requires layout { IsMeshLayout mesh.now (layout_of t.now) }
    requires long { length x.now ≡ length t.now.arcs.items }
    requires lengths { AreLengths (gluing_of (layout_of t.now)) (lengths_in x.now) }
    requires few { face_count (gluing_of (layout_of t.now)) (lengths_in x.now) ≤ MAX_NEW_FACES }
    ensures places { IfOk result (λ places. ArePlaces mesh.now (layout_of t.now) places) }
    ensures lengths { IfOk result (λ places. places.lengths.items ≡ x.now) }
    ensures shares { IfOk result (λ places. shares_in places.spaced ≡ shares) }
{
    let lengths = short_lengths(alloc, x)?;
    let along = inner_points(alloc, &lengths)?;
    let spaced = spaced_by(alloc, t, &lengths, shares)?;
    let arcs = ArcPlaces {
        t,
        lengths: &lengths,
        along: &along,
        spaced: &spaced,
    };
    let sides = sides_of(alloc, &arcs)?;
    let inside = inner_starts(alloc, &sides.rims)?;
    Ok(Places {
        tables: PlaceTables {
            lengths,
            along,
            inside,
            spaced,
            rims: sides.rims,
            parameters: sides.parameters,
        },
    })
}

/// The spacing by shares, where there are some.
fn spaced_by(
    alloc: Global,
    t: &TMesh,
    lengths: &[u32],
    shares: Option<DartShares>,
) -> Result<Option<Spaced>, AllocError>
    requires fine { AreFine (layout_of t.now) lengths.now }
    ensures spaced { IfOk result (λ spaced. IsSpaced (layout_of t.now) (lengths_in lengths.now) spaced) }
    ensures shares { IfOk result (λ spaced. shares_in spaced ≡ shares) }
{
    match shares {
        None => Ok(None),
        Some(shares) => {
            let parameters = shared_parameters(alloc, t, lengths, &shares)?;
            Ok(Some(Spaced { shares, parameters }))
        }
    }
}

/// Where the inner points of patches begin.
fn inner_starts(alloc: Global, rims: &[Rim]) -> Result<RunStarts, AllocError>
    requires some { (patch : ℕ) → patch < length rims.now
        → (0 < (rim_at rims.now patch).wide) × (0 < (rim_at rims.now patch).high) }
    requires small { count_below (inner_of rims.now) (length rims.now) < 2 ^ 32 }
    ensures { IfOk result (λ starts. AreRunStarts (inner_of rims.now) (length rims.now) starts.begin.items) }
{
    let mut starts = no_starts(alloc, rims.len())?;
    for rim in rims {
        push_start(&mut starts, (rim.wide - 1) * (rim.high - 1))?;
    }
    Ok(starts)
}

impl Places {
    /// The places with the layout of which they are.
    pub fn on<'a>(&'a self, t: &'a TMesh) -> Placed<'a>
        requires { (faces : Faces) × ArePlaces faces (layout_of t.now) self.now }
        ensures layout { result.t.now ≡ t.now }
        ensures tables { result.tables.now ≡ self.now }
    {
        let tables = &self.tables;
        Placed { t, tables }
    }
}

impl Placed<'_> {
    /// The place of the new vertex v, and where it was found. In constant time where it is near the last one, else
    /// logarithmic.
    pub fn place_near(&self, mesh: &Mesh, pos: &[[Micro; 3]], v: u32, near: &mut Near) -> [Micro; 3]
        requires layout { IsMeshLayout mesh.now (layout_of self.now.t.now) }
        requires positions { length pos.now ≡ vertex_count mesh.now }
        requires vertex { v < vertices (gluing_of (layout_of self.now.t.now))
            (lengths_in self.now.tables.now.lengths.items) }
        ensures value { result
            ≡ spaced_place mesh.now (layout_of self.now.t.now) pos.now (shares_in self.now.tables.now.spaced)
            (lengths_in self.now.tables.now.lengths.items) v }
        ensures between { LiesBetween pos.now result }
    {
        let old = OldMesh { mesh, pos };
        place_there(&old, self.spot_near(v, near))
    }

    /// The new size of a patch: how wide it is, and how high.
    pub fn rim(&self, patch: usize) -> Rim
        requires patch { patch < length self.now.t.now.patches.items }
        ensures wide { result.wide
            ≡ wide (gluing_of (layout_of self.now.t.now)) (lengths_in self.now.tables.now.lengths.items) patch }
        ensures high { result.high
            ≡ high (gluing_of (layout_of self.now.t.now)) (lengths_in self.now.tables.now.lengths.items) patch }
        ensures few { result.wide * result.high ≤ MAX_NEW_FACES }
        ensures short { (result.wide ≤ 2 ^ 21) × (result.high ≤ 2 ^ 21) }
    {
        self.tables.rims[patch]
    }
}
