//! The judge of texts: whether a text is one with a mesh and, behind it, a text that is written for this mesh: that of
//! a finished remesh, or of any command that writes a new mesh.
#![tactic(auto)]

mod asides;
mod certificates;
mod comparing;
mod judging;
mod least;
mod lengths;
mod making;
mod map;
mod old;
mod pair;
mod parts;
mod ready;
mod refined;
mod rounds;

pub use def_run::{CheckFail, Why};
pub use map::judge;
pub use pair::{Accepted, check_pair};
