//! The nodes of a cut: irregular vertices, and those with at least three edges of the cut.

ghost use Rattle.std.specs.Prelude.{◌≡◌, ◌≤◌, ◌<◌, ◌^◌, length, map, filter, IfOk};
ghost use Rattle.std.specs.List.{range_with_len};
ghost use Rattle.def_mesh.specs.Darts.{darts};
ghost use Rattle.def_mesh.specs.Vertices.{fan_of, vertex_count};
ghost use Rattle.def_mesh.specs.Kinds.{is_regular};
ghost use Rattle.def_mesh.specs.Meshes.{IsMesh};
ghost use Rattle.def_cut.specs.FullCut.{is_on};
ghost use Rattle.def_layout.specs.Nodes.{is_lone_before, is_node};
ghost use Rattle.qm_tmesh.specs.Tables.{ArePlaces};

use qm_mesh::Mesh;
use std::alloc::{AllocError, Global};

/// The nodes: a mark for each vertex, and where the marked ones stand.
#[derive(Drop)]
pub(crate) struct Nodes {
    pub(crate) marks: Vec<bool>,
    pub(crate) listed: Listed,
    ghost placed: { ArePlaces marks.items listed.list.items listed.places.items },
}

/// The marked vertices in order, and how many of them are less than each vertex.
#[derive(Drop)]
pub(crate) struct Listed {
    pub(crate) list: Vec<u32>,
    pub(crate) places: Vec<u32>,
}

/// Finds the nodes. Linear in the darts.
pub(crate) fn find_nodes(alloc: Global, mesh: &Mesh, cut: &[bool]) -> Result<Nodes, AllocError>
    requires { length cut.now ≡ darts mesh.now }
    ensures marks { IfOk result (λ n.
        n.marks.items ≡ map (is_node mesh.now cut.now) (range_with_len 0 (vertex_count mesh.now))) }
    ensures list { IfOk result (λ n.
        n.listed.list.items ≡ filter (is_on n.marks.items) (range_with_len 0 (length n.marks.items))) }
    ensures mesh { IfOk result (λ n. IsMesh mesh.now) }
{
    let marks = node_marks(alloc, mesh, cut)?;
    let listed = list_marked(alloc, &marks)?;
    Ok(Nodes { marks, listed })
}

/// The marked vertices and their places. Linear in the vertices.
fn list_marked(alloc: Global, marks: &[bool]) -> Result<Listed, AllocError>
    requires { length marks.now < 2 ^ 32 }
    ensures list { IfOk result (λ n. n.list.items ≡ filter (is_on marks.now) (range_with_len 0 (length marks.now))) }
    ensures places { IfOk result (λ n. ArePlaces marks.now n.list.items n.places.items) }
{
    let mut list = Vec::new(alloc);
    let mut places = Vec::new(alloc);
    for (v, on) in marks.iter().enumerate() {
        places.push(list.len() as u32)?;
        if *on {
            list.push(v as u32)?;
        }
    }
    Ok(Listed { list, places })
}

/// A mark for each vertex: whether it is a node.
fn node_marks(alloc: Global, mesh: &Mesh, cut: &[bool]) -> Result<Vec<bool>, AllocError>
    requires { length cut.now ≡ darts mesh.now }
    ensures marks { IfOk result (λ marks.
        marks.items ≡ map (is_node mesh.now cut.now) (range_with_len 0 (vertex_count mesh.now))) }
    ensures small { IfOk result (λ marks. length marks.items < 2 ^ 32) }
    ensures mesh { IfOk result (λ marks. IsMesh mesh.now) }
{
    let mut marks = Vec::new(alloc);
    for v in 0..mesh.vertices() {
        let meeting = Meeting {
            mesh,
            cut,
            vertex: v,
            fan: mesh.fan(v),
        };
        marks.push(meeting.is_node())?;
    }
    Ok(marks)
}

/// A vertex of a mesh where edges of a cut may meet, and the darts that leave it.
#[derive(Clone, Copy)]
struct Meeting<'a> {
    mesh: &'a Mesh,
    cut: &'a [bool],
    vertex: u32,
    fan: &'a [u32],
    ghost long: { length cut.now ≡ darts mesh.now },
    ghost low: { vertex < vertex_count mesh.now },
    ghost all: { fan.now ≡ fan_of mesh.now vertex },
}

impl Meeting<'_> {
    /// Whether it is irregular, or at least three edges of the cut meet there.
    fn is_node(&self) -> bool
        ensures { result ≡ is_node self.now.mesh.now self.now.cut.now self.now.vertex }
    {
        !self.is_regular() || self.leaving() + self.arriving() > 2
    }

    /// Whether it has as many faces as a regular vertex of its place, inside or at the boundary.
    fn is_regular(&self) -> bool
        ensures { result ≡ is_regular self.now.mesh.now self.now.vertex }
    {
        let faces = self.mesh.faces_at(self.vertex);
        faces
            == if self.mesh.is_inner(self.vertex) {
                4
            } else {
                2
            }
    }

    /// How many darts that leave it are cut.
    #[tactic(auto, using(crate::proofs::Walks::fan_low))]
    fn leaving(&self) -> usize
        ensures value { result ≡ length (filter (is_on self.now.cut.now) self.now.fan.now) }
        ensures bound { result ≤ length self.now.fan.now }
    {
        let mut count = 0usize;
        for d in self.fan {
            if self.cut[*d as usize] {
                count += 1;
            }
        }
        count
    }

    /// How many of the darts before those are cut and have no twin.
    #[tactic(auto, using(crate::proofs::Walks::fan_low))]
    fn arriving(&self) -> usize
        ensures value { result ≡ length (filter (is_lone_before self.now.mesh.now self.now.cut.now) self.now.fan.now) }
        ensures bound { result ≤ length self.now.fan.now }
    {
        let mut count = 0usize;
        for d in self.fan {
            let before = self.mesh.prev(*d);
            if self.cut[before as usize] && self.mesh.twin(before).is_none() {
                count += 1;
            }
        }
        count
    }
}
