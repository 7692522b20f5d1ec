//! The first face that names a vertex twice.

ghost use Rattle.std.specs.Prelude.{◌≡◌, OnOk, IfErr};
ghost use Rattle.def_mesh.specs.Manifold.{IsRepeatFree};
ghost use Rattle.def_mesh.specs.Faults.{repeat_in, IsFirstFault};

use crate::quads::Quads;
use def_mesh::Place;

/// The vertex of the first corner whose vertex stands at an earlier corner too.
fn repeated_vertex(face: &[u32; 4]) -> Option<u32>
    ensures { result ≡ repeat_in face.now }
{
    let [a, b, c, d] = *face;
    if b == a {
        Some(b)
    } else if c == b || c == a {
        Some(c)
    } else if d == c || d == b || d == a {
        Some(d)
    } else {
        None
    }
}

/// Refuses the first face that names a vertex twice.
pub(crate) fn check_repeats(quads: &Quads) -> Result<(), Place>
    ensures ok { OnOk result (IsRepeatFree quads.now.faces.now) }
    ensures err { IfErr result (IsFirstFault quads.now.faces.now) }
{
    for (f, face) in quads.faces.iter().enumerate() {
        if let Some(vertex) = repeated_vertex(face) {
            return Err(Place::Repeated {
                face: f as u32,
                vertex,
            });
        }
    }
    Ok(())
}
