//! A new mesh over a cut one, without its text.

ghost use Rattle.std.specs.Prelude.{◌≡◌, ◌<◌, ◌≤◌, ◌*◌, ◌^◌, length, IfOk};
ghost use Rattle.def_layout.specs.Lengths.{wide, high, AreLengths};
ghost use Rattle.def_layout.specs.Layouts.{gluing_of, layout_of};
ghost use Rattle.def_map.specs.Homes.{home_of};
ghost use Rattle.def_map.specs.Laws.{IsSpot};
ghost use Rattle.def_map.specs.Spots.{spot_at};
ghost use Rattle.def_remesh.specs.NewPoints.{lengths_in};
ghost use Rattle.def_remesh.specs.NewSoup.{spaced_place};
ghost use Rattle.def_remesh.specs.Numberings.{IsNumbering};
ghost use Rattle.def_remesh.specs.Placings.{shares_in, IsMeshLayout, LiesBetween};
ghost use Rattle.def_remesh.specs.declared.limits.TheConstants.{MAX_NEW_FACES};
ghost use Rattle.def_written.specs.NewFaces.{face_count, new_face};
ghost use Rattle.def_written.specs.Numbers.{vertex_number, vertices};
ghost use Rattle.def_written.specs.Points.{point};

use crate::cut_mesh::CutMesh;
use def_map::{Home, Spot};
use def_remesh::{DartShares, Rim};
use def_text::Micro;
use qm_place::{Near, Placed, Places, placer};
use qm_stitch::{Numbered, Numbering};
use std::alloc::{AllocError, Global};
use std::marker::Model;

/// A new mesh over a cut one, at whole lengths of the arcs: the numbers of its points and faces, and their places.
/// Contracts see the soup, the layout, the lengths and the shares by which points are spaced.
#[derive(Drop)]
pub struct Regridded {
    cut: CutMesh,
    numbering: Numbering,
    places: Places,
}

impl Model for Regridded {
    ghost use Rattle.std.specs.Prelude.{◌≡◌};
    ghost use Rattle.def_remesh.specs.CutSoups.{Regrid};
    ghost use Rattle.def_remesh.specs.Numberings.{IsNumbering};
    ghost use Rattle.def_remesh.specs.Placings.{shares_in, ArePlaces};

    ghost Value = { Regrid };

    ghost view = { λ r. record {
      soup = r.cut.soup;
      layout = r.cut.layout;
      lengths = r.numbering.lengths.items;
      shares = shares_in r.places.spaced;
    } };

    ghost invariant = { λ r. IsNumbering r.cut.layout r.numbering × ArePlaces r.cut.soup.faces r.cut.layout r.places
        × (r.places.lengths.items ≡ r.numbering.lengths.items) };
}

impl Regridded {
    /// The new mesh at the lengths that are numbered, whose points are spaced by shares, or evenly. Linear in the arcs,
    /// their darts where there are shares, the patches and the new vertices on the sides of patches.
    pub fn new(
        alloc: Global,
        cut: CutMesh,
        numbering: Numbering,
        x: &[u64],
        shares: Option<DartShares>,
    ) -> Result<Regridded, AllocError>
        requires numbering { IsNumbering cut.layout numbering }
        requires lengths { numbering.lengths.items ≡ x.now }
        ensures { IfOk result (λ new.
            new ≡ record { soup = cut.soup; layout = cut.layout; lengths = x.now; shares = shares }) }
    {
        let places = placer(alloc, cut.mesh(), cut.layout(), x, shares)?;
        Ok(Regridded {
            cut,
            numbering,
            places,
        })
    }

    /// The mesh that is cut.
    pub fn cut(&self) -> &CutMesh
        ensures { result.now ≡ record { soup = self.now.soup; layout = self.now.layout } }
    {
        &self.cut
    }

    /// How many vertices there are.
    pub fn vertices(&self) -> u32
        ensures { result ≡ vertices (gluing_of self.now.layout) (lengths_in self.now.lengths) }
    {
        self.numbering.vertices()
    }

    /// How many faces there are.
    pub fn faces(&self) -> u32
        ensures { result ≡ face_count (gluing_of self.now.layout) (lengths_in self.now.lengths) }
    {
        self.numbering.faces()
    }

    /// Face f: the numbers of its corners.
    pub fn face(&self, f: u32) -> [u32; 4]
        requires face { f < face_count (gluing_of self.now.layout) (lengths_in self.now.lengths) }
        ensures { result ≡ new_face (gluing_of self.now.layout) (lengths_in self.now.lengths) f }
    {
        self.numbered().face(f)
    }

    /// The number of grid point (i, j) of a patch. In constant time inside the patch, and logarithmic in the arcs of a
    /// side on that.
    pub fn point(&self, patch: usize, i: u32, j: u32) -> u32
        requires patch { patch < length self.now.layout.patches }
        requires column { i ≤ wide (gluing_of self.now.layout) (lengths_in self.now.lengths) patch }
        requires row { j ≤ high (gluing_of self.now.layout) (lengths_in self.now.lengths) patch }
        ensures number { result ≡ vertex_number (gluing_of self.now.layout) (lengths_in self.now.lengths)
            (point (gluing_of self.now.layout) (lengths_in self.now.lengths) patch i j) }
        ensures vertex { result < vertices (gluing_of self.now.layout) (lengths_in self.now.lengths) }
    {
        self.numbered().point(patch, i, j)
    }

    /// The place of vertex v, and where it was found. In constant time where it is near the last one, else logarithmic.
    pub fn place_near(&self, v: u32, near: &mut Near) -> [Micro; 3]
        requires vertex { v < vertices (gluing_of self.now.layout) (lengths_in self.now.lengths) }
        ensures value { result
            ≡ spaced_place self.now.soup.faces self.now.layout self.now.soup.pos self.now.shares
            (lengths_in self.now.lengths) v }
        ensures between { LiesBetween self.now.soup.pos result }
    {
        self.placed()
            .place_near(self.cut.mesh(), self.cut.pos(), v, near)
    }

    /// Where vertex v lies in the old mesh. In constant time where it is near the last one, else logarithmic.
    pub fn spot_near(&self, v: u32, near: &mut Near) -> Spot
        requires vertex { v < vertices (gluing_of self.now.layout) (lengths_in self.now.lengths) }
        ensures value { result ≡ spot_at self.now.layout self.now.shares (lengths_in self.now.lengths) v }
        ensures spot { IsSpot self.now.soup.faces result }
    {
        self.placed().spot_near(v, near)
    }

    /// Where the face in column i and row j of a patch lies in the old mesh.
    pub fn home(&self, patch: usize, i: u32, j: u32) -> Home
        requires patch { patch < length self.now.layout.patches }
        requires column { i < wide (gluing_of self.now.layout) (lengths_in self.now.lengths) patch }
        requires row { j < high (gluing_of self.now.layout) (lengths_in self.now.lengths) patch }
        ensures { result ≡ home_of self.now.layout self.now.shares (lengths_in self.now.lengths) patch i j }
    {
        self.placed().home(patch, i, j)
    }

    /// The new size of a patch: how wide it is, and how high.
    pub fn rim(&self, patch: usize) -> Rim
        requires patch { patch < length self.now.layout.patches }
        ensures wide { result.wide ≡ wide (gluing_of self.now.layout) (lengths_in self.now.lengths) patch }
        ensures high { result.high ≡ high (gluing_of self.now.layout) (lengths_in self.now.lengths) patch }
        ensures few { result.wide * result.high ≤ MAX_NEW_FACES }
        ensures short { (result.wide ≤ 2 ^ 21) × (result.high ≤ 2 ^ 21) }
    {
        self.placed().rim(patch)
    }

    /// What numbers points and faces.
    fn numbered(&self) -> Numbered<'_>
        ensures layout { layout_of result.t.now ≡ self.now.layout }
        ensures lengths { result.tables.now.lengths.items ≡ self.now.lengths }
        ensures laid { IsMeshLayout self.now.soup.faces self.now.layout }
        ensures even { AreLengths (gluing_of self.now.layout) (lengths_in self.now.lengths) }
    {
        self.numbering.on(self.cut.layout())
    }

    /// What tells where points lie.
    fn placed(&self) -> Placed<'_>
        ensures layout { layout_of result.t.now ≡ self.now.layout }
        ensures lengths { result.tables.now.lengths.items ≡ self.now.lengths }
        ensures shares { shares_in result.tables.now.spaced ≡ self.now.shares }
        ensures laid { IsMeshLayout self.now.soup.faces self.now.layout }
        ensures even { AreLengths (gluing_of self.now.layout) (lengths_in self.now.lengths) }
        ensures few { face_count (gluing_of self.now.layout) (lengths_in self.now.lengths) ≤ MAX_NEW_FACES }
    {
        self.places.on(self.cut.layout())
    }
}
