//! What a line says.

use crate::{Micro, ObjFail};

/// What one logical line says.
#[derive(Clone, Copy, Debug, PartialEq, Eq)]
pub enum Reading {
    /// The line is ignored.
    Passed,
    Position([Micro; 3]),
    /// The corners are numbers of `v` lines, from 1.
    Face { line: u32, corners: [u32; 4] },
    Refused(ObjFail),
}
