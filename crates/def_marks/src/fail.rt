//! The lines of a text that mark edges, and why they are refused.

use std::alloc::AllocError;
use thiserror::Error;

/// The first word of a line that marks edges.
pub const LINE: u8 = b'l';

/// Why a text marks no edges. Lines count from 1.
#[derive(Clone, Copy, Debug, PartialEq, Eq, Error)]
pub enum MarkFail {
    #[error("line {line}: not an OBJ line of this profile")]
    Syntax { line: u32 },
    #[error("line {line}: number out of range")]
    Range { line: u32 },
    #[error("line {line}: not an edge of the mesh")]
    NotEdge { line: u32 },
    #[error("out of memory")]
    Memory,
}

impl From<AllocError> for MarkFail {
    ghost use Rattle.std.specs.Prelude.{◌≡◌};
    ghost use Rattle.def_marks.specs.declared.fail.MarkFail.TheVariants as mark_fail;

    ghost from_gives = { λ _ e. e ≡ mark_fail.Memory };

    fn from(_: AllocError) -> MarkFail {
        MarkFail::Memory
    }
}
