//! The descent to a least list of lengths, with a certificate that shows it to be least.
#![tactic(auto)]

mod descent;
mod idle;
mod priced;
mod round;
mod start;

pub use def_flow::{Cert, Net};
pub use descent::{Descent, first_descent, solve_from, turn};
pub use round::first_wishes;
pub use start::{is_start, solve, solve_near, start_of};

/// Want of memory.
pub type Memory = std::alloc::AllocError;
