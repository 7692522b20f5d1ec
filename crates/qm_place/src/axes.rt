//! Places between old vertices, axis by axis.

ghost use Rattle.std.specs.Prelude.{◌≡◌, ◌<◌, ◌≤◌, length};
ghost use Rattle.def_mesh.specs.Darts.{darts};
ghost use Rattle.def_written.specs.Places.{ONE};
ghost use Rattle.def_map.specs.Laws.{IsSpot};
ghost use Rattle.def_map.specs.SpotPlaces.{between_ends, coordinate_at, in_face, on_axes, spot_place};
ghost use Rattle.qm_place.specs.Spots.{IsShort};

use crate::old::OldMesh;
use crate::ways::{blend, on_the_way};
use def_map::{EdgeSpot, FaceSpot, Spot};
use def_text::Micro;

/// The place of a new vertex that lies there.
pub(crate) fn place_there(old: &OldMesh, spot: Spot) -> [Micro; 3]
    requires spot { IsSpot old.now.mesh.now spot }
    requires short { IsShort spot }
    ensures { result ≡ spot_place old.now.mesh.now old.now.pos.now spot }
{
    match spot {
        Spot::AtVertex(v) => vertex_place(old.pos, v),
        Spot::OnEdge(spot) => way_place(old, spot),
        Spot::InFace(spot) => cell_place(old, spot),
    }
}

/// The place of an old vertex.
fn vertex_place(pos: &[[Micro; 3]], v: u32) -> [Micro; 3]
    requires { v < length pos.now }
    ensures { result ≡ on_axes (coordinate_at pos.now v) }
{
    let [x, y, z] = pos[v as usize];
    [x, y, z]
}

/// A place between the ends of a dart.
fn way_place(old: &OldMesh, spot: EdgeSpot) -> [Micro; 3]
    requires dart { spot.dart < darts old.now.mesh.now }
    requires parts { (spot.some < spot.parts) × (spot.parts ≤ ONE) }
    ensures { result ≡ on_axes (between_ends old.now.mesh.now old.now.pos.now spot) }
{
    let (mesh, pos) = (old.mesh, old.pos);
    let [px, py, pz] = pos[mesh.from(spot.dart) as usize];
    let [qx, qy, qz] = pos[mesh.to(spot.dart) as usize];
    [
        on_the_way(px, qx, spot.some, spot.parts),
        on_the_way(py, qy, spot.some, spot.parts),
        on_the_way(pz, qz, spot.some, spot.parts),
    ]
}

/// A place in a face.
fn cell_place(old: &OldMesh, spot: FaceSpot) -> [Micro; 3]
    requires dart { spot.dart < darts old.now.mesh.now }
    requires inside { (spot.s ≤ ONE) × (spot.t ≤ ONE) }
    ensures { result ≡ on_axes (in_face old.now.mesh.now old.now.pos.now spot) }
{
    let (mesh, pos) = (old.mesh, old.pos);
    let east = mesh.next(spot.dart);
    let north = mesh.next(east);
    let west = mesh.next(north);
    let [ax, ay, az] = pos[mesh.from(spot.dart) as usize];
    let [bx, by, bz] = pos[mesh.from(east) as usize];
    let [cx, cy, cz] = pos[mesh.from(north) as usize];
    let [dx, dy, dz] = pos[mesh.from(west) as usize];
    [
        blend(spot.s, spot.t, [ax, bx, cx, dx]),
        blend(spot.s, spot.t, [ay, by, cy, dy]),
        blend(spot.s, spot.t, [az, bz, cz, dz]),
    ]
}
