//! How long the arcs of a layout are in space, and the lengths that are wanted of them where new edges have one length.

ghost use Rattle.std.specs.Prelude.{◌≡◌, ◌<◌, ◌≤◌, ◌^◌, length};
ghost use Rattle.std.specs.List.{All};
ghost use Rattle.def_mesh.specs.Darts.{darts, from_of, to_of};
ghost use Rattle.def_metric.specs.Targets.{edge_length, measure_of, position_at, squared_apart};
ghost use Rattle.def_metric.specs.Targets.{squared_between, target_of};

use crate::roots::root;
use def_metric::EDGE_PARTS;
use def_text::Micro;
use qm_stages::CutMesh;

/// What arcs are measured by: the mesh that they cut, and the length that new edges are to have, in millionths.
#[derive(Clone, Copy)]
pub(crate) struct Ruler<'a> {
    pub(crate) cut: &'a CutMesh,
    pub(crate) edge: u64,
    pub(crate) ghost some: { 1 ≤ edge },
}

/// The length that is wanted of an arc with these darts.
pub(crate) fn target_of(ruler: &Ruler, path: &[u32]) -> u128
    requires short { length path.now < 2 ^ 32 }
    requires inside { All (λ d. d < darts ruler.now.cut.now.soup.faces) path.now }
    ensures value { result ≡ target_of ruler.now.cut.now.soup.faces ruler.now.cut.now.soup.pos ruler.now.edge path.now }
    ensures small { result < 2 ^ 104 }
{
    u128::from(EDGE_PARTS) * measure_of(ruler.cut, path) / u128::from(ruler.edge)
}

/// How long an arc with these darts is, in millionths.
fn measure_of(cut: &CutMesh, path: &[u32]) -> u128
    requires short { length path.now < 2 ^ 32 }
    requires inside { All (λ d. d < darts cut.now.soup.faces) path.now }
    ensures value { result ≡ measure_of cut.now.soup.faces cut.now.soup.pos path.now }
    ensures small { result < 2 ^ 94 }
{
    let mut sum = 0u128;
    for dart in path {
        sum += u128::from(edge_length(cut, *dart));
    }
    sum
}

/// How long the edge of a dart is, in millionths.
pub(crate) fn edge_length(cut: &CutMesh, dart: u32) -> u64
    requires dart { dart < darts cut.now.soup.faces }
    ensures value { result ≡ edge_length cut.now.soup.faces cut.now.soup.pos dart }
    ensures small { result < 2 ^ 62 }
{
    root(squared_length(cut, dart))
}

/// The square of that length.
fn squared_length(cut: &CutMesh, dart: u32) -> u128
    requires dart { dart < darts cut.now.soup.faces }
    ensures value { result ≡ squared_between (position_at cut.now.soup.pos (from_of cut.now.soup.faces dart))
        (position_at cut.now.soup.pos (to_of cut.now.soup.faces dart)) }
    ensures small { result < 2 ^ 124 }
{
    let mesh = cut.mesh();
    let pos = cut.pos();
    let [ax, ay, az] = pos[mesh.from(dart) as usize];
    let [bx, by, bz] = pos[mesh.to(dart) as usize];
    squared_apart(ax, bx) + squared_apart(ay, by) + squared_apart(az, bz)
}

/// The square of how far two coordinates are apart.
fn squared_apart(a: Micro, b: Micro) -> u128
    ensures value { result ≡ squared_apart a b }
    ensures small { result < 2 ^ 122 }
{
    let apart = u128::from(a.n.abs_diff(b.n));
    apart * apart
}
