//! What a run answers, and what each answer means for the bytes that came in and went out.
#![tactic(auto)]

mod answer;
mod check_fail;
mod command;
mod words;

pub use answer::{Answer, Why};
pub use check_fail::CheckFail;
pub use command::{Command, EQUALS, MAX_MULTIPLE, MAX_SIZE, MAX_WORD};
pub use def_remesh::Kept;
pub use words::WordsFail;
