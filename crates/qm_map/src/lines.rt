//! The lines, which take no memory.

ghost use Rattle.std.specs.Prelude.{◌≡◌, ◌<◌};
ghost use Rattle.def_map.specs.Laws.{IsSpot};
ghost use Rattle.def_map.specs.MapText.{at_vertex_line, cell_front, edge_line, face_line, map_head, on_edge_line};
ghost use Rattle.def_map.specs.MapText.{seen_text, spot_line};
ghost use Rattle.def_mesh.specs.Darts.{darts};
ghost use Rattle.def_written.specs.Places.{ONE};

use def_map::{EdgeSpot, FaceSpot, Seen, Spot};
use qm_place::EDGE;
use qm_print::{Line, line_of, numbered_line, push_integer, push_numbered};
use qm_stages::CutMesh;

/// The first two lines.
pub(crate) fn head_line(vertices: u32, faces: u32) -> Line
    ensures { result.bytes ≡ map_head vertices faces }
{
    let mut line = numbered_line("quadq map 1\nvertices ", u64::from(vertices), " faces ");
    push_numbered(&mut line, u64::from(faces), "\n");
    line
}

/// The line of a new vertex.
pub(crate) fn spot_line(cut: &CutMesh, spot: Spot) -> Line
    requires { IsSpot cut.now.soup.faces spot }
    ensures { result.bytes ≡ spot_line cut.now.soup.faces cut.now.soup.names spot }
{
    match spot {
        Spot::AtVertex(v) => at_vertex_line(cut.names()[v as usize]),
        Spot::OnEdge(spot) => edge_line(cut, spot),
        Spot::InFace(spot) => face_line(spot),
    }
}

/// The line of one that lies on an edge, or at its beginning.
fn edge_line(cut: &CutMesh, spot: EdgeSpot) -> Line
    requires { spot.dart < darts cut.now.soup.faces }
    ensures { result.bytes ≡ edge_line cut.now.soup.faces cut.now.soup.names spot }
{
    let mesh = cut.mesh();
    let names = cut.names();
    let from = names[mesh.from(spot.dart) as usize];
    if spot.some == 0 {
        return at_vertex_line(from);
    }
    on_edge_line(
        from,
        names[mesh.to(spot.dart) as usize],
        spot.some,
        spot.parts,
    )
}

/// The line of one that lies at an old vertex.
fn at_vertex_line(vertex: u32) -> Line
    ensures { result.bytes ≡ at_vertex_line vertex }
{
    numbered_line("vertex ", u64::from(vertex), "\n")
}

/// The line of one that lies so far along the way from one old vertex to another.
fn on_edge_line(from: u32, to: u32, some: u64, parts: u64) -> Line
    ensures { result.bytes ≡ on_edge_line from to some parts }
{
    if parts == EDGE {
        return share_line(from, to, some);
    }
    let mut line = numbered_line("edge ", u64::from(from), " ");
    push_numbered(&mut line, u64::from(to), " ");
    push_numbered(&mut line, some, " ");
    push_numbered(&mut line, parts, "\n");
    line
}

/// The same in parts of a parameter.
fn share_line(from: u32, to: u32, some: u64) -> Line
    ensures { result.bytes ≡ on_edge_line from to some ONE }
{
    let mut line = numbered_line("share ", u64::from(from), " ");
    push_numbered(&mut line, u64::from(to), " ");
    push_numbered(&mut line, some, "\n");
    line
}

/// The line of one that lies in a face.
fn face_line(spot: FaceSpot) -> Line
    ensures { result.bytes ≡ face_line spot }
{
    let mut line = numbered_line("face ", u64::from(spot.dart / 4) + 1, " ");
    push_numbered(&mut line, u64::from(spot.dart % 4) + 1, " ");
    push_numbered(&mut line, spot.s, " ");
    push_numbered(&mut line, spot.t, "\n");
    line
}

/// The front of the line of a new face, which lies in the old face of this south dart.
pub(crate) fn cell_front(dart: u32) -> Line
    ensures { result.bytes ≡ cell_front dart }
{
    let mut line = numbered_line("cell ", u64::from(dart / 4) + 1, " ");
    push_numbered(&mut line, u64::from(dart % 4) + 1, "");
    line
}

/// A corner in that line.
pub(crate) fn seen_text(seen: Seen) -> Line
    ensures { result.bytes ≡ seen_text seen }
{
    let mut line = line_of(" ");
    push_integer(&mut line, seen.s, " ");
    push_integer(&mut line, seen.t, "");
    line
}
