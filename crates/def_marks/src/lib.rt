//! What the `l` lines of a text say: the edges of its mesh that they mark, or their first refusal; and how marked edges
//! are written.

#![tactic(auto)]

mod fail;

pub use fail::{LINE, MarkFail};
