//! The text of a traced mesh with its layout.

ghost use Rattle.std.specs.Prelude.{◌≡◌, ◌++◌, length, map, IfOk, OnOk};
ghost use Rattle.std.specs.List.{flat_map};
ghost use Rattle.def_mesh.specs.Components.{least_faces};
ghost use Rattle.def_mesh.specs.Kinds.{kind_of};
ghost use Rattle.def_mesh.specs.Sources.{AreSources};
ghost use Rattle.def_mesh.specs.Vertices.{all_vertices};
ghost use Rattle.def_cut.specs.Traced.{IsGraphOf};
ghost use Rattle.def_layout.specs.FaceLayouts.{IsCutLayout};
ghost use Rattle.def_layout.specs.Layouts.{layout_of};
ghost use Rattle.def_report.specs.GraphText.{counts_line, graph_text as text_of, kind_line, seed_line, vertex_line};

use crate::Memory;
use crate::lines::{push_count, push_line, push_named};
use crate::parts::{push_arcs, push_patches};
use crate::riders::push_riders;
use def_cut::Graph;
use def_io::LINE_FEED;
use def_layout::TMesh;
use def_mesh::{Kind, Starts};
use qm_mesh::Mesh;
use qm_sing::{edge_count, euler};
use std::alloc::Global;

/// The text of a mesh whose sources, traced graph and layout these are. Linear in the darts and in the text.
pub fn graph_text(
    alloc: Global,
    mesh: &Mesh,
    src: &Starts,
    g: &Graph,
    t: &TMesh,
) -> Result<Vec<u8>, Memory>
    requires sources { AreSources mesh.now src.now }
    requires graph { IsGraphOf mesh.now g.now }
    requires layout { IsCutLayout mesh.now g.now.covered.items (layout_of t.now) }
    ensures { IfOk result (λ text. text.items ≡ text_of mesh.now g.now.riders.items (layout_of t.now)) }
{
    let mut text = Vec::new(alloc);
    text.extend_from_slice(b"quadq graph 1\n")?;
    push_counts(alloc, &mut text, mesh, src.components)?;
    push_vertices(&mut text, mesh, &src.kinds)?;
    push_seeds(&mut text, &src.seeds)?;
    push_riders(&mut text, mesh, &g.riders)?;
    push_arcs(&mut text, t)?;
    push_patches(&mut text, t)?;
    Ok(text)
}

/// How many vertices, edges, faces and components there are, and Euler's number.
pub(crate) fn push_counts(
    alloc: Global,
    text: &mut Vec<u8>,
    mesh: &Mesh,
    components: u32,
) -> Result<(), Memory>
    requires { components ≡ length (least_faces mesh.now) }
    ensures { OnOk result (text.new.items ≡ text.old.items ++ counts_line mesh.now) }
{
    push_count(text, b"vertices ", mesh.vertices())?;
    push_count(text, b" edges ", edge_count(mesh))?;
    push_count(text, b" faces ", mesh.faces().len() as u32)?;
    push_named(text, b" euler ", i128::from(euler(alloc, mesh)?))?;
    push_count(text, b" components ", components)?;
    text.push(LINE_FEED)?;
    Ok(())
}

/// The irregular vertices, with how many faces there are at each.
fn push_vertices(text: &mut Vec<u8>, mesh: &Mesh, kinds: &[Kind]) -> Result<(), Memory>
    requires { kinds.now ≡ map (kind_of mesh.now) (all_vertices mesh.now) }
    ensures { OnOk result (text.new.items ≡
        text.old.items ++ flat_map (vertex_line mesh.now) (all_vertices mesh.now)) }
{
    for v in 0..mesh.vertices() {
        push_vertex(text, kinds[v as usize], v, mesh.faces_at(v))?;
    }
    Ok(())
}

/// A vertex of some kind with so many faces, unless it is regular.
pub(crate) fn push_vertex(
    text: &mut Vec<u8>,
    kind: Kind,
    vertex: u32,
    faces: u32,
) -> Result<(), Memory>
    ensures { OnOk result (text.new.items ≡ text.old.items ++ kind_line kind vertex faces) }
{
    let numbers = [u64::from(vertex) + 1, u64::from(faces)];
    match kind {
        Kind::Regular => Ok(()),
        Kind::Singular => push_line(text, b"singular", &numbers),
        Kind::Corner => push_line(text, b"corner", &numbers),
        Kind::Reflex => push_line(text, b"reflex", &numbers),
    }
}

/// The seeds of the rings.
fn push_seeds(text: &mut Vec<u8>, seeds: &[u32]) -> Result<(), Memory>
    ensures { OnOk result (text.new.items ≡ text.old.items ++ flat_map seed_line seeds.now) }
{
    for seed in seeds {
        push_line(text, b"seed", &[u64::from(*seed) + 1])?;
    }
    Ok(())
}
