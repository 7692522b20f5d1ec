//! Components: each is flooded from its least face.

ghost use Rattle.std.specs.Prelude.{◌≡◌, ◌<◌, ◌+◌, ◌*◌, ◌/◌, ℕ, length, OnOk, IfOk, slice_index};
ghost use Rattle.def_mesh.specs.Components.{component_numbers, least_faces};
ghost use Rattle.def_mesh.specs.Darts.{darts, twin_of};
ghost use Rattle.qm_sing.specs.Floods.{
  IsClosed,
  IsFlooded,
  IsSpread,
  Waits,
  numbers_with,
  waiting_with,
};

use crate::Memory;
use qm_mesh::Mesh;
use std::alloc::Global;

/// No component yet.
pub(crate) const NONE: u32 = u32::MAX;

/// The number of each face's component, and how many components there are. Linear in the faces.
#[tactic(auto, using(crate::proofs::Numberings::numbering_low))]
pub fn components(alloc: Global, mesh: &Mesh) -> Result<(Vec<u32>, u32), Memory>
    ensures numbers { IfOk result (λ r. r.0.items ≡ component_numbers mesh.now) }
    ensures many { IfOk result (λ r. r.1 ≡ length (least_faces mesh.now)) }
{
    let faces = mesh.faces().len();
    let mut numbers = vec![in alloc; NONE; faces]?;
    let mut waiting = Vec::new(alloc);
    let mut components = 0;
    for f in 0..faces as u32 {
        if numbers[f as usize] == NONE {
            flood(mesh, f, components, &mut numbers, &mut waiting)?;
            components += 1;
        }
    }
    Ok((numbers, components))
}

/// Gives this number to all faces of the component of the first.
fn flood(
    mesh: &Mesh,
    first: u32,
    component: u32,
    numbers: &mut [u32],
    waiting: &mut Vec<u32>,
) -> Result<(), Memory>
    requires face { (first < length mesh.now) × (slice_index numbers.old first ≡ NONE) }
    requires number { component < NONE }
    requires long { length numbers.old ≡ length mesh.now }
    requires closed { IsClosed mesh.now numbers.old }
    requires empty { length waiting.old.items ≡ 0 }
    ensures flooded { OnOk result (IsFlooded mesh.now first component numbers.old numbers.new) }
    ensures empty { OnOk result (length waiting.new.items ≡ 0) }
{
    let _known = mesh.faces();
    numbers[first as usize] = component;
    waiting.push(first)?;
    while let Some(f) = waiting.pop() {
        spread(mesh, f, component, numbers, waiting)?;
    }
    Ok(())
}

/// Gives this number to the faces beside f that have none, which then wait.
fn spread(
    mesh: &Mesh,
    f: u32,
    component: u32,
    numbers: &mut [u32],
    waiting: &mut Vec<u32>,
) -> Result<(), Memory>
    requires face { f < length mesh.now }
    requires number { component < NONE }
    requires long { length numbers.old ≡ length mesh.now }
    requires low { (g : ℕ) → Waits waiting.old.items g → g < length mesh.now }
    ensures { OnOk result
        (IsSpread mesh.now f component 4 numbers.old numbers.new waiting.old.items waiting.new.items) }
{
    let _known = mesh.faces();
    for i in 0..4 {
        look(mesh, 4 * f + i, component, numbers, waiting)?;
    }
    Ok(())
}

/// Looks at the face behind the edge of d.
fn look(
    mesh: &Mesh,
    d: u32,
    component: u32,
    numbers: &mut [u32],
    waiting: &mut Vec<u32>,
) -> Result<(), Memory>
    requires dart { d < darts mesh.now }
    requires long { length numbers.old ≡ length mesh.now }
    ensures numbers { OnOk result (numbers.new ≡ numbers_with (twin_of mesh.now d) component numbers.old) }
    ensures waiting { OnOk result
        (waiting.new.items ≡ waiting_with (twin_of mesh.now d) numbers.old waiting.old.items) }
{
    if let Some(twin) = mesh.twin(d) {
        let g = twin / 4;
        if numbers[g as usize] == NONE {
            waiting.push(g)?;
            numbers[g as usize] = component;
        }
    }
    Ok(())
}
