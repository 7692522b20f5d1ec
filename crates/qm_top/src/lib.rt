//! The top call: one command line, run from a source to a sink, with every refusal told.
#![tactic(auto)]

mod bench;
mod blocks;
mod check;
mod coarse;
mod command;
mod crease;
mod cuts;
mod deviation;
mod error_line;
mod finishing;
mod fit;
mod graph;
mod grids;
mod heads;
mod input;
mod judged;
mod layout;
mod map;
mod named;
mod process;
mod refine;
mod refusal;
mod remesh;
mod size;
mod summary;
mod tidy;
mod why_line;

pub use command::run;
pub use def_mesh::Place;
pub use def_run::{Answer, Kept, Why};
pub use process::{exit_status, run_process};
