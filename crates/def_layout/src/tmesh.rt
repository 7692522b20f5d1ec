//! A layout as the program keeps it: nodes, arcs, patches and their sides.

use def_cut::Patch;
use std::alloc::Global;

/// A straight run of darts from node to node. `first` and `last` are the places of its ends in the list of nodes.
#[derive(Debug, Drop)]
pub struct TArc {
    pub first: u32,
    pub last: u32,
    pub darts: Vec<u32>,
}

/// An arc on the side of a patch, and whether it runs in the side's direction.
#[derive(Clone, Copy, Debug, PartialEq, Eq)]
pub struct SideArc {
    pub arc: u32,
    pub forward: bool,
}

/// The arcs of one side of a patch, counter-clockwise.
#[derive(Debug, Drop)]
pub struct Side {
    pub arcs: Vec<SideArc>,
}

/// Nodes, arcs, patches and their sides: south, east, north and west. `nodes` has the vertices of the nodes, in
/// increasing order.
#[derive(Debug, Drop)]
pub struct TMesh {
    pub nodes: Vec<u32>,
    pub arcs: Vec<TArc>,
    pub patches: Vec<Patch>,
    pub sides: Vec<[Side; 4]>,
}
