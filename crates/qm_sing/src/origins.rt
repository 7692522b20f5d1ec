//! Kinds, components, seeds and start darts of a mesh.

ghost use Rattle.std.specs.Prelude.{◌≡◌, ◌<◌, ◌*◌, ◌&&◌, ◌||◌, map, IfOk};
ghost use Rattle.def_mesh.specs.Components.{seeds as seeds_of, start_darts};
ghost use Rattle.def_mesh.specs.Darts.{darts};
ghost use Rattle.def_mesh.specs.Kinds.{kind_of};
ghost use Rattle.def_mesh.specs.Sources.{AreSources};
ghost use Rattle.def_mesh.specs.Vertices.{all_vertices, vertex_count};
ghost use Rattle.qm_sing.specs.Rings.{AreSeedMarks, is_reflex_kind, is_singular_kind};

use crate::Memory;
use crate::classes::classify;
use crate::flooding::components;
use crate::rings::{Classed, seed_marks};
use def_mesh::{Kind, Starts};
use qm_mesh::Mesh;
use std::alloc::Global;

/// The kinds, components, seeds and start darts of a mesh. Linear in the darts.
pub fn sources(alloc: Global, mesh: &Mesh) -> Result<Starts, Memory>
    ensures { IfOk result (AreSources mesh.now) }
{
    let kinds = kinds(alloc, mesh)?;
    let (component, components) = components(alloc, mesh)?;
    let classed = Classed {
        mesh,
        kinds: &kinds,
        component: &component,
        components,
    };
    let marks = seed_marks(alloc, &classed)?;
    let seeds = seeds(alloc, mesh, &marks)?;
    let starts = starts(alloc, &classed, &marks)?;
    Ok(Starts {
        kinds,
        component,
        components,
        starts,
        seeds,
    })
}

/// The kind of each vertex.
#[tactic(auto, using(crate::proofs::Floods::map_more))]
fn kinds(alloc: Global, mesh: &Mesh) -> Result<Vec<Kind>, Memory>
    ensures { IfOk result (λ kinds. kinds.items ≡ map (kind_of mesh.now) (all_vertices mesh.now)) }
{
    let vertices = mesh.vertices();
    let mut kinds = Vec::with_capacity(alloc, vertices as usize)?;
    for v in 0..vertices {
        kinds.push(classify(mesh, v))?;
    }
    Ok(kinds)
}

/// The marked vertices.
fn seeds(alloc: Global, mesh: &Mesh, marks: &[bool]) -> Result<Vec<u32>, Memory>
    requires { AreSeedMarks mesh.now (vertex_count mesh.now) (darts mesh.now) marks.now }
    ensures { IfOk result (λ seeds. seeds.items ≡ seeds_of mesh.now) }
{
    let mut seeds = Vec::new(alloc);
    for v in 0..mesh.vertices() {
        if marks[v as usize] {
            seeds.push(v)?;
        }
    }
    Ok(seeds)
}

/// The darts along which riders start.
#[tactic(auto, using(crate::proofs::Longest::kinds_long))]
fn starts(alloc: Global, classed: &Classed, marks: &[bool]) -> Result<Vec<u32>, Memory>
    requires { AreSeedMarks classed.now.mesh.now
        (vertex_count classed.now.mesh.now) (darts classed.now.mesh.now) marks.now }
    ensures { IfOk result (λ starts. starts.items ≡ start_darts classed.now.mesh.now) }
{
    let mut starts = Vec::new(alloc);
    for d in 0..4 * classed.mesh.faces().len() as u32 {
        let v = classed.mesh.from(d) as usize;
        if may_start(classed.kinds[v], classed.mesh.twin(d).is_some(), marks[v]) {
            starts.push(d)?;
        }
    }
    Ok(starts)
}

/// Whether a rider starts along a dart that leaves a vertex of this kind.
fn may_start(kind: Kind, has_twin: bool, is_seed: bool) -> bool
    ensures { result ≡ (is_singular_kind kind || (has_twin && (is_reflex_kind kind || is_seed))) }
{
    match kind {
        Kind::Singular => true,
        Kind::Reflex => has_twin,
        Kind::Regular => has_twin && is_seed,
        Kind::Corner => has_twin && is_seed,
    }
}
