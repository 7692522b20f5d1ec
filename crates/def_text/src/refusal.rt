//! Why a text is refused.

ghost use Rattle.std.specs.Prelude.{◌≡◌};

use def_io::ReadFail;
use std::alloc::AllocError;
use thiserror::Error;

/// The limit that a text exceeds.
#[derive(Clone, Copy, Debug, PartialEq, Eq)]
pub enum Which {
    Bytes,
    Line,
    Vertices,
    Faces,
}

/// Why a text has no soup. Lines count from 1.
#[derive(Clone, Copy, Debug, PartialEq, Eq, Error)]
pub enum ObjFail {
    #[error("line {line}: not an OBJ line of this profile")]
    Syntax { line: u32 },
    #[error("line {line}: face with {corners} corners")]
    NotQuad { line: u32, corners: u32 },
    #[error("line {line}: number out of range")]
    Range { line: u32 },
    #[error("line {line}: above the limit of {which:?}")]
    Limit { which: Which, line: u32 },
    #[error("out of memory")]
    Memory,
}

impl From<AllocError> for ObjFail {
    ghost use Rattle.std.specs.Prelude.{◌≡◌};
    ghost use Rattle.def_text.specs.declared.refusal.ObjFail.TheVariants as obj_fail;

    ghost from_gives = { λ _ e. e ≡ obj_fail.Memory };

    fn from(_: AllocError) -> ObjFail {
        ObjFail::Memory
    }
}

/// Why a source gives no soup.
#[derive(Clone, Copy, Debug, PartialEq, Eq, Error)]
pub enum SoupFail {
    #[error("a read failed")]
    Fault,
    #[error("the input is too long")]
    TooLong,
    /// The first refusal of the text, which is never want of memory.
    #[error("{0}")]
    Obj(ObjFail),
    #[error("out of memory")]
    Memory,
}

impl From<ReadFail> for SoupFail {
    ghost use Rattle.def_text.specs.Fails.{of_read};

    ghost from_gives = { λ fail e. e ≡ of_read fail };

    fn from(fail: ReadFail) -> SoupFail {
        match fail {
            ReadFail::Fault => SoupFail::Fault,
            ReadFail::TooLong => SoupFail::TooLong,
            ReadFail::Memory => SoupFail::Memory,
        }
    }
}

impl From<ObjFail> for SoupFail {
    ghost use Rattle.def_text.specs.Fails.{of_obj};

    ghost from_gives = { λ fail e. e ≡ of_obj fail };

    fn from(fail: ObjFail) -> SoupFail {
        match fail {
            ObjFail::Memory => SoupFail::Memory,
            _ => SoupFail::Obj(fail),
        }
    }
}
