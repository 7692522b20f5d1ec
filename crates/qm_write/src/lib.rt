//! Puts the text of a new mesh, and the text of a remesh: the head line, the new mesh and the lines of the
//! certificates. Both go out line by line, wherever the text goes.
#![tactic(auto)]

mod body;
mod faces;
mod remesh;
mod text;
mod vertices;

pub use body::put_new_mesh;
pub use remesh::Remesh;
pub use text::{Framed, PutFail, put_framed};
