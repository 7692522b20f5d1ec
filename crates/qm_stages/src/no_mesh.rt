//! Why a soup has no mesh.

use def_mesh::Place;
use def_text::Soup;
use thiserror::Error;

/// Why there is no mesh of a soup's faces.
#[derive(Debug, Drop, Error)]
pub enum NoMesh {
    /// They are no manifold, first at this place.
    #[error("no manifold")]
    NotManifold { place: Place, soup: Soup },
    /// Memory was refused.
    #[error("out of memory")]
    Memory,
}
