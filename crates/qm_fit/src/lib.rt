//! What a fit is asked for: its words and its head line, written and read.
#![tactic(auto)]

mod edge;
mod head;
mod reading;
mod words;

pub use def_fit::{Aim, Fit, Keep, Patches};
pub use edge::{is_micro_text, read_edge};
pub use head::{fit_head, keep_word, patches_word};
pub use reading::read_fit_head;
pub use words::{FitWords, read_fit, read_keep, read_patches};

/// Want of memory.
pub type Memory = std::alloc::AllocError;
