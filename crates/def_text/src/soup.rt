//! The vertices and faces of a text.

use crate::Micro;
use std::marker::Model;

/// Quads over places: every index is below the number of places, every vertex is a corner of some face, and
/// `names` has for each vertex its number in the file, from 1 and increasing.
#[derive(Debug, Drop)]
pub struct Soup {
    pub pos: Vec<[Micro; 3]>,
    pub faces: Vec<[u32; 4]>,
    pub names: Vec<u32>,
}

impl Model for Soup {
    ghost use Rattle.def_text.specs.FaceSet.{FaceSet, IsSoup};

    ghost Value = { FaceSet };

    ghost view = { λ s. record { pos = s.pos.items; faces = s.faces.items; names = s.names.items } };

    ghost invariant = { λ s. IsSoup (record { pos = s.pos.items; faces = s.faces.items; names = s.names.items }) };
}
