//! The darts that leave each vertex, in increasing order.

ghost use Rattle.std.specs.Prelude.{◌≡◌, ◌<◌, [], ◌∷◌, ◌++◌, length, OnOk, IfOk, replicate, slice_set};
ghost use Rattle.qm_mesh.specs.Tables.{fan_lists, fan_at, AreFans};

use crate::darts::from;
use crate::quads::Quads;
use smallvec::SmallVec;
use std::alloc::{AllocError, Global};

/// Most vertices have four faces, so a fan needs no memory of its own.
pub(crate) type Fan = SmallVec<u32, 4>;

/// The fans of all vertices. Linear in darts and vertices.
pub(crate) fn gather(alloc: Global, quads: &Quads) -> Result<Vec<Fan>, AllocError>
    ensures { IfOk result (λ fans. AreFans quads.now.faces.now quads.now.vertices fans.items) }
{
    let mut fans = empty(alloc, quads.vertices)?;
    for d in 0..4 * quads.faces.len() as u32 {
        add(&mut fans, from(quads.faces, d), d)?;
    }
    Ok(fans)
}

/// So many empty fans.
fn empty(alloc: Global, vertices: u32) -> Result<Vec<Fan>, AllocError>
    ensures { IfOk result (λ fans. fan_lists fans.items ≡ replicate vertices []) }
{
    let mut fans = Vec::with_capacity(alloc, vertices as usize)?;
    'each: for _ in 0..vertices {
        fans.push(Fan::new(alloc))?;
    }
    Ok(fans)
}

/// Puts d at the end of the fan of v.
fn add(fans: &mut Vec<Fan>, v: u32, d: u32) -> Result<(), AllocError>
    requires { v < length (fan_lists fans.old.items) }
    ensures { let more = fan_at fans.old.items v ++ d ∷ [] in
        OnOk result (fan_lists fans.new.items ≡ slice_set (fan_lists fans.old.items) v more) }
{
    let fan = &mut fans[v as usize];
    fan.push(d)?;
    Ok(())
}
