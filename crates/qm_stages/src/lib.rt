//! A soup with its mesh, both with the layout of a full cut, and a new mesh over these: values that keep what belongs
//! together, so that no contract has to say that it does.
#![tactic(auto)]

mod cut_mesh;
mod meshed;
mod no_mesh;
mod planning;
mod regridded;
mod rising;

pub use cut_mesh::CutMesh;
pub use meshed::Meshed;
pub use no_mesh::NoMesh;
pub use planning::plan_over;
pub use regridded::Regridded;
pub use rising::{are_needed_over, rises_over};
