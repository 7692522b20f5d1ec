//! The darts of a list of faces: each call reads one or two corners.

ghost use Rattle.std.specs.Prelude.{◌≡◌, ◌<◌, ◌&&◌, ◌==◌};
ghost use Rattle.def_mesh.specs.Darts.{darts, next_of, prev_of, from_of, to_of};

/// The next dart round the face.
pub(crate) fn next(d: u32) -> u32
    ensures { result ≡ next_of d }
{
    if d % 4 == 3 { d - 3 } else { d + 1 }
}

/// The dart before d round the face.
pub(crate) fn prev(d: u32) -> u32
    ensures { result ≡ prev_of d }
{
    if d % 4 == 0 { d + 3 } else { d - 1 }
}

/// The vertex where d begins.
pub(crate) fn from(faces: &[[u32; 4]], d: u32) -> u32
    requires { d < darts faces.now }
    ensures { result ≡ from_of faces.now d }
{
    faces[(d / 4) as usize][(d % 4) as usize]
}

/// The vertex where d ends.
#[tactic(auto, using(mesh_laws::proofs::Chains::next_of_low))]
pub(crate) fn to(faces: &[[u32; 4]], d: u32) -> u32
    requires { d < darts faces.now }
    ensures { result ≡ to_of faces.now d }
{
    from(faces, next(d))
}

/// Whether dart d runs from u to v.
pub(crate) fn runs(faces: &[[u32; 4]], d: u32, u: u32, v: u32) -> bool
    requires { d < darts faces.now }
    ensures { result ≡ ((from_of faces.now d == u) && (to_of faces.now d == v)) }
{
    from(faces, d) == u && to(faces, d) == v
}
