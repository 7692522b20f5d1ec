//! Why no mesh is built.

use def_mesh::Place;
use std::alloc::AllocError;
use thiserror::Error;

/// Why a list of faces gives no mesh.
#[derive(Clone, Copy, Debug, PartialEq, Eq, Error)]
pub enum MeshFail {
    /// The faces are no manifold, first at this place.
    #[error("{0}")]
    NotManifold(Place),
    /// Memory was refused.
    #[error("out of memory")]
    Memory,
}

impl From<AllocError> for MeshFail {
    ghost use Rattle.std.specs.Prelude.{◌≡◌};
    ghost use Rattle.qm_mesh.specs.declared.fail.MeshFail.TheVariants.{Memory};

    ghost from_gives = { λ _ e. e ≡ Memory };

    fn from(_: AllocError) -> MeshFail {
        MeshFail::Memory
    }
}

impl From<Place> for MeshFail {
    ghost use Rattle.std.specs.Prelude.{◌≡◌};
    ghost use Rattle.qm_mesh.specs.declared.fail.MeshFail.TheVariants.{NotManifold};

    ghost from_gives = { λ place e. e ≡ NotManifold place };

    fn from(place: Place) -> MeshFail {
        MeshFail::NotManifold(place)
    }
}
