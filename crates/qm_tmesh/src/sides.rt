//! The arcs on the sides of a patch.

ghost use Rattle.std.specs.Prelude.{◌≡◌, ◌+◌, ◌<◌, ℕ, Bool, Some, map, IfOk};
ghost use Rattle.def_mesh.specs.Darts.{darts, straight_of};
ghost use Rattle.def_mesh.specs.HalfEdges.{half_edges};
ghost use Rattle.def_cut.specs.Steps.{easts};
ghost use Rattle.def_cut.specs.Grids.{rectangle};
ghost use Rattle.def_layout.specs.Arcs.{path};
ghost use Rattle.layout_laws.specs.Named.{run_list};
ghost use Rattle.qm_tmesh.specs.Sides.{IsSplit, IsSideOf};
ghost use Rattle.qm_tmesh.specs.Four.{HasSide, HasPatch, HavePatches, AreFour, AreAllFour, four_of};

use def_cut::Patch;
use def_layout::{Side, SideArc, TArc};
use qm_mesh::Mesh;
use std::alloc::{AllocError, Global};

/// The arcs, and the use that begins with each dart.
#[derive(Drop)]
pub(crate) struct Runs {
    pub(crate) arcs: Vec<TArc>,
    pub(crate) uses: Vec<SideArc>,
}

/// A straight line of darts.
pub(crate) fn line(
    alloc: Global,
    mesh: &Mesh,
    first: u32,
    size: u32,
) -> Result<Vec<u32>, AllocError>
    requires dart { first < darts mesh.now }
    requires some { 0 < size }
    requires straight { (t : ℕ) → t + 1 < size
        → straight_of mesh.now (easts (half_edges mesh.now) first t)
        ≡ Some (easts (half_edges mesh.now) first (t + 1)) }
    ensures { IfOk result (λ line. line.items ≡ run_list (half_edges mesh.now) first size) }
{
    let mut line = Vec::new(alloc);
    let mut d = first;
    line.push(d)?;
    'steps: for _ in 1..size {
        d = mesh.straight(d).unwrap();
        line.push(d)?;
    }
    Ok(line)
}

/// The arcs that make up a line.
pub(crate) fn side(alloc: Global, runs: &Runs, line: &[u32]) -> Result<Side, AllocError>
    requires { (begins : ℕ → Bool) × IsSplit (map path runs.now.arcs.items) runs.now.uses.items line.now begins }
    ensures { IfOk result (λ side.
        IsSideOf (map path runs.now.arcs.items) runs.now.uses.items line.now side.arcs.items) }
{
    // Most sides are one arc.
    let mut arcs = Vec::with_capacity(alloc, 1)?;
    let mut t = 0usize;
    while t < line.len() {
        let used = runs.uses[line[t] as usize];
        arcs.push(used)?;
        t += runs.arcs[used.arc as usize].darts.len();
    }
    Ok(Side { arcs })
}

/// The side that begins with a dart at a corner of a patch.
#[tactic(auto, using(crate::proofs::Splits::from_low, crate::proofs::Splits::from_some))]
pub(crate) fn side_from(
    alloc: Global,
    mesh: &Mesh,
    runs: &Runs,
    first: u32,
    size: u32,
) -> Result<Side, AllocError>
    requires { HasSide mesh.now (map path runs.now.arcs.items) runs.now.uses.items first size }
    ensures { IfOk result (λ side.
        IsSideOf (map path runs.now.arcs.items) runs.now.uses.items
        (run_list (half_edges mesh.now) first size) side.arcs.items) }
{
    let darts = line(alloc, mesh, first, size)?;
    side(alloc, runs, &darts)
}

/// The four sides of a patch: south, east, north and west.
fn four_sides(
    alloc: Global,
    mesh: &Mesh,
    patch: &Patch,
    runs: &Runs,
) -> Result<[Side; 4], AllocError>
    requires { HasPatch mesh.now (map path runs.now.arcs.items) runs.now.uses.items (rectangle patch.now) }
    ensures { IfOk result (λ four.
        AreFour mesh.now (map path runs.now.arcs.items) runs.now.uses.items (rectangle patch.now) (four_of four)) }
{
    let (w, h) = (patch.w, patch.h);
    let south_east = mesh.next(patch.cells[w as usize - 1]);
    let north_east = mesh.next(mesh.next(patch.cells[patch.cells.len() - 1]));
    let north_west = mesh.prev(patch.cells[patch.cells.len() - w as usize]);
    let south = side_from(alloc, mesh, runs, patch.cells[0], w)?;
    let east = side_from(alloc, mesh, runs, south_east, h)?;
    let north = side_from(alloc, mesh, runs, north_east, w)?;
    let west = side_from(alloc, mesh, runs, north_west, h)?;
    Ok([south, east, north, west])
}

/// The sides of all patches. Linear in their borders.
pub(crate) fn sides(
    alloc: Global,
    mesh: &Mesh,
    patches: &[Patch],
    runs: &Runs,
) -> Result<Vec<[Side; 4]>, AllocError>
    requires { HavePatches mesh.now (map path runs.now.arcs.items) runs.now.uses.items (map rectangle patches.now) }
    ensures { IfOk result (λ sides.
        AreAllFour mesh.now (map path runs.now.arcs.items) runs.now.uses.items (map rectangle patches.now)
        (map four_of sides.items)) }
{
    let mut sides = Vec::with_capacity(alloc, patches.len())?;
    for patch in patches {
        let four = four_sides(alloc, mesh, patch, runs)?;
        sides.push(four)?;
    }
    Ok(sides)
}
