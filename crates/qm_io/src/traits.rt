//! What a source and a sink are.

ghost use Rattle.std.specs.Prelude.{◌≡◌, ◌≤◌, ◌<◌, take, length, IfOk, IfErr};
ghost use Rattle.def_io.specs.Faults.{HasCause};
ghost use Rattle.def_io.specs.Moves.{gave, took, IsEmptied, StreamState};

use def_io::{ReadFail, WriteFail};
use std::alloc::AllocError;
use thiserror::Error;

/// Want of memory, where it is a call's only refusal.
pub type Memory = AllocError;

/// A read or a write that did not succeed.
#[derive(Clone, Copy, Debug, PartialEq, Eq, Error)]
#[error("a stream failed")]
pub struct Failed;

impl From<Failed> for WriteFail {
    ghost use Rattle.std.specs.Prelude.{◌≡◌};
    ghost use Rattle.def_io.specs.declared.fails.WriteFail.TheVariants as write_fail;

    ghost from_gives = { λ _ e. e ≡ write_fail.Fault };

    fn from(_: Failed) -> WriteFail {
        WriteFail::Fault
    }
}

impl From<Failed> for ReadFail {
    ghost use Rattle.std.specs.Prelude.{◌≡◌};
    ghost use Rattle.def_io.specs.declared.fails.ReadFail.TheVariants as read_fail;

    ghost from_gives = { λ _ e. e ≡ read_fail.Fault };

    fn from(_: Failed) -> ReadFail {
        ReadFail::Fault
    }
}

/// Where bytes come from.
pub trait Source {
    /// The bytes that the source still holds, where it can tell, and how many of its reads failed.
    ghost state: { Self → StreamState };

    /// Moves bytes to the front of the buffer and says how many. None, in a buffer that has room, is the end.
    fn read(&mut self, buf: &mut [u8]) -> Result<usize, Failed>
        ensures cause { HasCause (state self.old).faults (state self.new).faults result }
        ensures fits { IfOk result (λ n. n ≤ length buf.old) }
        ensures gives { IfOk result (λ n. (state self.old).told ≡ gave (take n buf.new) (state self.new).told) }
        ensures end { IfOk result (λ n. n ≡ 0 → 0 < length buf.old → IsEmptied (state self.new).told) }
        ensures still { IfErr result (λ _. (state self.new).told ≡ (state self.old).told) };
}

/// Where bytes go to.
pub trait Sink {
    /// The bytes that the sink took so far, where it can tell, and how many of its writes failed.
    ghost state: { Self → StreamState };

    /// Takes bytes from the front of the piece, at least one where there is one, and says how many.
    fn write(&mut self, piece: &[u8]) -> Result<usize, Failed>
        ensures cause { HasCause (state self.old).faults (state self.new).faults result }
        ensures fits { IfOk result (λ n. n ≤ length piece.now) }
        ensures moves { IfOk result (λ n. 0 < length piece.now → 0 < n) }
        ensures takes { IfOk result (λ n. (state self.new).told ≡ took (state self.old).told (take n piece.now)) }
        ensures still { IfErr result (λ _. (state self.new).told ≡ (state self.old).told) };
}
