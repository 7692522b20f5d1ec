//! How many faces a layout with lengths gives.

ghost use Rattle.std.specs.Prelude.{◌≡◌};
ghost use Rattle.def_layout.specs.Layouts.{gluing_of, layout_of};
ghost use Rattle.def_layoutnet.specs.MeshLayouts.{IsSomeLayout};
ghost use Rattle.def_written.specs.NewFaces.{face_count};
ghost use Rattle.def_remesh.specs.NewPoints.{lengths_in};

use crate::stretched::Stretched;
use qm_offsets::size_on;

/// How many faces there are. Linear in the arcs on the sides of patches.
pub(crate) fn count_faces(stretched: &Stretched) -> u128
    requires layout { IsSomeLayout (layout_of stretched.now.t.now) }
    ensures { result ≡ face_count (gluing_of (layout_of stretched.now.t.now)) (lengths_in stretched.now.lengths.now) }
{
    let mut faces = 0u128;
    for patch in 0..stretched.t.patches.len() {
        let wide = size_on(stretched.t, patch, 0, stretched.lengths);
        let high = size_on(stretched.t, patch, 3, stretched.lengths);
        faces += u128::from(wide) * u128::from(high);
    }
    faces
}
