//! Room for what a forest comes to: it is made with the forest, so that writing it down takes no memory.

ghost use Rattle.std.specs.Prelude.{◌≡◌, ◌≤◌, ◌^◌, IfOk};

use crate::matchings::empty_round;
use crate::rounds::Round;
use crate::start::Memory;
use std::alloc::Global;
use std::marker::Model;

/// Room for a matching and a dual of a graph, seen as how large the graph is.
#[derive(Drop)]
pub(crate) struct Room {
    pub(crate) vertices: usize,
    /// No edge is chosen, and no set waits.
    pub(crate) round: Round,
    /// Room for the sets, and for the numbers of the vertices and of the sets.
    pub(crate) sets: Vec<(u32, u32)>,
    pub(crate) y: Vec<i64>,
    pub(crate) z: Vec<i64>,
}

impl Model for Room {
    ghost use Rattle.std.specs.Prelude.{length};
    ghost use Rattle.std.specs.Vec.{vec_capacity};
    ghost use Rattle.def_forest.specs.Tables.{GraphSize};
    ghost use Rattle.qm_forest.specs.Outlines.{IsBlank};

    ghost Value = { GraphSize };

    ghost view = { λ r. record { vertices = r.vertices; edges = length r.round.marks.items } };

    ghost invariant = { λ r. IsBlank r.vertices r.round (vec_capacity r.sets) (vec_capacity r.y) (vec_capacity r.z) };
}

impl Room {
    /// Room for graphs of this size.
    pub(crate) fn new(alloc: Global, vertices: usize, edges: usize) -> Result<Room, Memory>
        requires { vertices ≤ 2 ^ 26 }
        ensures { IfOk result (λ room. room ≡ record { vertices = vertices; edges = edges }) }
    {
        let sets = vertices / 2;
        Ok(Room {
            vertices,
            round: empty_round(alloc, edges, vertices + sets)?,
            sets: Vec::with_capacity(alloc, sets)?,
            y: Vec::with_capacity(alloc, vertices)?,
            z: Vec::with_capacity(alloc, sets)?,
        })
    }
}
