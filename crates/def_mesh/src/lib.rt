//! What a mesh of quads is: darts, manifolds, kinds of vertices, components, over a list of faces alone.

#![tactic(auto)]

use thiserror::Error;

/// A mesh has at most so many faces.
pub const MAX_FACES: usize = 2_097_152;

/// What a vertex is for the cut: 4 faces are regular inside and 2 at the boundary; an irregular inner vertex
/// is singular, and a boundary vertex with one face is a corner, with more than two reflex.
#[derive(Clone, Copy, Debug, PartialEq, Eq)]
pub enum Kind {
    Regular,
    Singular,
    Corner,
    Reflex,
}

/// Where a list of faces fails to be a manifold. Faces and vertices are numbered from 0.
#[derive(Clone, Copy, Debug, PartialEq, Eq, Error)]
pub enum Place {
    /// The face names the vertex twice.
    #[error("face {face} names vertex {vertex} twice")]
    Repeated {
        face: u32,
        vertex: u32,
    },
    /// Both faces run along one edge in the same direction.
    #[error("faces {face1} and {face2} both run from vertex {from} to vertex {to}")]
    EdgeTwice {
        from: u32,
        to: u32,
        face1: u32,
        face2: u32,
    },
    /// The faces at the vertex form more than one fan.
    #[error("the faces at vertex {vertex} form more than one fan")]
    TwoFans {
        vertex: u32,
    },
}

/// What a mesh is for riders. Faces, vertices and darts are numbered from 0.
#[derive(Debug, Drop)]
pub struct Starts {
    /// The kind of each vertex.
    pub kinds: Vec<Kind>,
    /// The number of each face's component.
    pub component: Vec<u32>,
    pub components: u32,
    /// The darts along which riders start, increasing.
    pub starts: Vec<u32>,
    /// The least vertex of each ring, increasing.
    pub seeds: Vec<u32>,
}
