//! A mesh with a full cut of it.

ghost use Rattle.std.specs.Prelude.{◌≡◌, ◌<◌, ◌↔◌, length, IsTrue, IsSome, IfSome};
ghost use Rattle.def_mesh.specs.Darts.{darts, from_of, next_of, prev_of, twin_of};
ghost use Rattle.def_mesh.specs.HalfEdges.{half_edges};
ghost use Rattle.def_mesh.specs.Vertices.{vertex_count};
ghost use Rattle.def_cut.specs.Cuts.{IsCorner};
ghost use Rattle.def_cut.specs.FullCut.{is_on};
ghost use Rattle.def_cut.specs.Steps.{step_east, step_north};
ghost use Rattle.def_known.specs.Cutting.{IsCutting};

use qm_mesh::Mesh;
use std::marker::Model;

/// A mesh with the marks of a full cut of it. Contracts see its faces and the marks.
#[derive(Drop)]
pub struct Cutting<'a> {
    mesh: &'a Mesh,
    cut: &'a [bool],
}

impl<'a> Model for Cutting<'a> {
    ghost use Rattle.def_known.specs.Cutting.{CutFaces, IsCutting};

    ghost Value = { CutFaces };

    ghost view = { λ c. record { faces = c.mesh.now; marks = c.cut.now } };

    ghost invariant = { λ c. IsCutting c.mesh.now c.cut.now };
}

impl<'a> Cutting<'a> {
    /// A mesh with these marks.
    pub fn new(mesh: &'a Mesh, cut: &'a [bool]) -> Cutting<'a>
        requires { IsCutting mesh.now cut.now }
        ensures { result ≡ record { faces = mesh.now; marks = cut.now } }
    {
        Cutting { mesh, cut }
    }

    /// The marks are a full cut.
    pub fn is_full(&self)
        ensures { IsCutting self.now.faces self.now.marks }
    {
        let _ = &self.mesh;
    }

    /// How many faces there are.
    pub fn faces(&self) -> usize
        ensures { result ≡ length self.now.faces }
    {
        self.mesh.faces().len()
    }

    /// How many darts there are.
    pub fn darts(&self) -> u32
        ensures { result ≡ length self.now.marks }
    {
        self.cut.len() as u32
    }

    /// The next dart round the face.
    pub fn next(&self, d: u32) -> u32
        requires { d < darts self.now.faces }
        ensures value { result ≡ next_of d }
        ensures dart { result < darts self.now.faces }
    {
        self.mesh.next(d)
    }

    /// The dart before d round the face.
    pub fn prev(&self, d: u32) -> u32
        requires { d < darts self.now.faces }
        ensures value { result ≡ prev_of d }
        ensures dart { result < darts self.now.faces }
    {
        self.mesh.prev(d)
    }

    /// The twin of d, if its edge has two darts.
    pub fn twin(&self, d: u32) -> Option<u32>
        requires { d < darts self.now.faces }
        ensures value { result ≡ twin_of self.now.faces d }
        ensures dart { IfSome result (λ e. e < darts self.now.faces) }
    {
        self.mesh.twin(d)
    }

    /// The vertex where d begins.
    pub fn from(&self, d: u32) -> u32
        requires { d < darts self.now.faces }
        ensures value { result ≡ from_of self.now.faces d }
        ensures vertex { result < vertex_count self.now.faces }
    {
        self.mesh.from(d)
    }

    /// Whether the edge of d is cut.
    pub fn is_cut(&self, d: u32) -> bool
        requires { d < darts self.now.faces }
        ensures { result ≡ is_on self.now.marks d }
    {
        self.cut[d as usize]
    }

    /// The dart straight on from d, in the face to the east, over an edge with two darts.
    pub fn east(&self, d: u32) -> u32
        requires dart { d < darts self.now.faces }
        requires paired { IsSome (twin_of self.now.faces (next_of d)) }
        ensures value { result ≡ step_east (half_edges self.now.faces) d }
        ensures dart { result < darts self.now.faces }
    {
        let across = self.mesh.twin(self.mesh.next(d)).unwrap();
        self.mesh.next(across)
    }

    /// The dart in the face to the north, over an edge with two darts.
    pub fn north(&self, d: u32) -> u32
        requires dart { d < darts self.now.faces }
        requires paired { IsSome (twin_of self.now.faces (next_of (next_of d))) }
        ensures value { result ≡ step_north (half_edges self.now.faces) d }
        ensures dart { result < darts self.now.faces }
    {
        self.mesh.twin(self.mesh.next(self.mesh.next(d))).unwrap()
    }

    /// Whether a patch has a corner where d begins.
    pub fn is_corner(&self, d: u32) -> bool
        requires { d < darts self.now.faces }
        ensures { IsTrue result ↔ IsCorner (half_edges self.now.faces) (is_on self.now.marks) d }
    {
        self.cut[d as usize] && self.cut[self.mesh.prev(d) as usize]
    }
}
