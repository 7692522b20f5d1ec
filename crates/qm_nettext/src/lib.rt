//! Networks as text, for programs and tests. No clause says what a text means: who reads a network
//! tests it (`is_within_bounds`), and nothing that quadq promises rests on one.
#![tactic(auto)]

mod fail;
mod read;

pub use fail::NetFail;
pub use read::read_net;
