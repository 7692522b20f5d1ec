//! The canonical text of a soup, line by line.

ghost use Rattle.std.specs.Prelude.{◌≡◌, OnOk, OnErr, IfOk};
ghost use Rattle.std.specs.List.{flat_map};
ghost use Rattle.def_text.specs.Canonical.{canonical_text, face_text, position_text};

use crate::Memory;
use crate::row::{face_row, position_row};
use def_output::Stopped;
use def_text::{Micro, Soup};
use qm_output::{MemText, Output};
use std::alloc::{AllocError, Global};

/// The canonical text: a line `v x y z` for each vertex, then a line `f a b c d` for each face.
pub fn obj_text(alloc: Global, soup: &Soup) -> Result<Vec<u8>, Memory>
    ensures { IfOk result (λ text. text.items ≡ canonical_text soup.now) }
{
    let mut text = MemText::new(alloc);
    match put_soup(&mut text, soup) {
        Ok(()) => Ok(text.into_bytes()),
        Err(_) => Err(AllocError),
    }
}

/// Puts the canonical text of a soup. Linear, without memory.
pub fn put_soup<T: Output>(out: &mut T, soup: &Soup) -> Result<(), Stopped>
    ensures whole { OnOk result (T.takes out.old out.new (canonical_text soup.now)) }
    ensures part { OnErr result (T.stops out.old out.new (canonical_text soup.now)) }
{
    put_positions(out, &soup.pos)?;
    put_faces(out, &soup.faces)
}

fn put_positions<T: Output>(out: &mut T, positions: &[[Micro; 3]]) -> Result<(), Stopped>
    ensures whole { OnOk result (T.takes out.old out.new (flat_map position_text positions.now)) }
    ensures part { OnErr result (T.stops out.old out.new (flat_map position_text positions.now)) }
{
    for position in positions {
        put_position(out, position)?;
    }
    Ok(())
}

fn put_faces<T: Output>(out: &mut T, faces: &[[u32; 4]]) -> Result<(), Stopped>
    ensures whole { OnOk result (T.takes out.old out.new (flat_map face_text faces.now)) }
    ensures part { OnErr result (T.stops out.old out.new (flat_map face_text faces.now)) }
{
    for face in faces {
        put_face(out, face)?;
    }
    Ok(())
}

/// Puts the line of a vertex.
pub fn put_position<T: Output>(out: &mut T, position: &[Micro; 3]) -> Result<(), Stopped>
    ensures whole { OnOk result (T.takes out.old out.new (position_text position.now)) }
    ensures part { OnErr result (T.stops out.old out.new (position_text position.now)) }
{
    out.put(position_row(position).as_slice())
}

/// Puts the line of a face.
pub fn put_face<T: Output>(out: &mut T, face: &[u32; 4]) -> Result<(), Stopped>
    ensures whole { OnOk result (T.takes out.old out.new (face_text face.now)) }
    ensures part { OnErr result (T.stops out.old out.new (face_text face.now)) }
{
    out.put(face_row(face).as_slice())
}
