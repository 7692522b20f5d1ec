//! Half edges of a manifold of quads: the check of the face list, twins and fans, over `def_mesh`.

#![tactic(auto)]

mod darts;
mod fail;
mod fans;
mod manifold;
mod mesh;
mod one_fan;
mod quads;
mod repeats;
mod table;
mod twins;

pub use fail::MeshFail;
pub use manifold::build;
pub use mesh::Mesh;
