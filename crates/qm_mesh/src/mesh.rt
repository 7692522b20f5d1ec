//! A manifold of quads with its tables, and what can be asked of it. No call takes memory.

ghost use Rattle.std.specs.Prelude.{◌≡◌, ◌<◌, IfOk, IfSome};
ghost use Rattle.def_mesh.specs.Darts.{darts, next_of, prev_of, from_of, to_of, twin_of, straight_of};
ghost use Rattle.def_mesh.specs.Kinds.{is_inner};
ghost use Rattle.def_mesh.specs.Meshes.{IsMesh};
ghost use Rattle.def_mesh.specs.Vertices.{vertex_count, fan_of, faces_at};
ghost use Rattle.qm_mesh.specs.Tables.{IsMeshOf};

use crate::darts::{from, next, prev, to};
use crate::fans::Fan;
use crate::table::{all_paired, partner};
use std::alloc::{AllocError, Global};
use std::marker::Model;

/// A manifold of at most 2^21 quads. Contracts see its list of faces; each vertex from 0 on is used.
#[derive(Drop)]
pub struct Mesh {
    faces: Vec<[u32; 4]>,
    twins: Vec<u32>,
    fans: Vec<Fan>,
}

impl Model for Mesh {
    ghost use Rattle.def_mesh.specs.Faces.{Faces};
    ghost use Rattle.qm_mesh.specs.Tables.{IsMeshOf};

    ghost Value = { Faces };

    ghost view = { λ m. m.faces.items };

    ghost invariant = { λ m. IsMeshOf m.faces.items m.twins.items m.fans.items };
}

impl Mesh {
    /// The mesh of these tables.
    pub(crate) fn from_tables(
        alloc: Global,
        faces: &[[u32; 4]],
        twins: Vec<u32>,
        fans: Vec<Fan>,
    ) -> Result<Mesh, AllocError>
        requires { IsMeshOf faces.now twins.items fans.items }
        ensures { IfOk result (λ m. m ≡ faces.now) }
    {
        let faces = Vec::from_slice(alloc, faces)?;
        Ok(Mesh { faces, twins, fans })
    }

    /// The faces, as they were given.
    pub fn faces(&self) -> &[[u32; 4]]
        ensures value { result.now ≡ self.now }
        ensures mesh { IsMesh self.now }
    {
        &self.faces
    }

    /// How many vertices there are.
    pub fn vertices(&self) -> u32
        ensures value { result ≡ vertex_count self.now }
        ensures mesh { IsMesh self.now }
    {
        self.fans.len() as u32
    }

    /// The next dart round the face.
    pub fn next(&self, d: u32) -> u32
        requires { d < darts self.now }
        ensures value { result ≡ next_of d }
        ensures dart { result < darts self.now }
    {
        next(d)
    }

    /// The dart before d round the face.
    pub fn prev(&self, d: u32) -> u32
        requires { d < darts self.now }
        ensures value { result ≡ prev_of d }
        ensures dart { result < darts self.now }
    {
        prev(d)
    }

    /// The vertex where d begins.
    pub fn from(&self, d: u32) -> u32
        requires { d < darts self.now }
        ensures value { result ≡ from_of self.now d }
        ensures vertex { result < vertex_count self.now }
    {
        from(&self.faces, d)
    }

    /// The vertex where d ends.
    pub fn to(&self, d: u32) -> u32
        requires { d < darts self.now }
        ensures value { result ≡ to_of self.now d }
        ensures vertex { result < vertex_count self.now }
    {
        to(&self.faces, d)
    }

    /// The twin of d: `None` exactly where the edge of d has one dart.
    pub fn twin(&self, d: u32) -> Option<u32>
        requires { d < darts self.now }
        ensures value { result ≡ twin_of self.now d }
        ensures dart { IfSome result (λ e. e < darts self.now) }
    {
        partner(&self.twins, d)
    }

    /// The dart that leads straight on over the end of d: `None` exactly where the edge of the next dart has one dart.
    pub fn straight(&self, d: u32) -> Option<u32>
        requires { d < darts self.now }
        ensures value { result ≡ straight_of self.now d }
        ensures dart { IfSome result (λ e. e < darts self.now) }
    {
        let across = self.twin(next(d))?;
        Some(next(across))
    }

    /// How many faces there are at v.
    pub fn faces_at(&self, v: u32) -> u32
        requires { v < vertex_count self.now }
        ensures { result ≡ faces_at self.now v }
    {
        self.fans[v as usize].len() as u32
    }

    /// Whether each edge at v has two darts. Linear in the faces at v.
    pub fn is_inner(&self, v: u32) -> bool
        requires { v < vertex_count self.now }
        ensures { result ≡ is_inner self.now v }
    {
        all_paired(&self.twins, self.fan(v))
    }

    /// The darts that leave v, in increasing order.
    pub fn fan(&self, v: u32) -> &[u32]
        requires { v < vertex_count self.now }
        ensures { result.now ≡ fan_of self.now v }
    {
        let fan = &self.fans[v as usize];
        fan.as_slice()
    }
}
