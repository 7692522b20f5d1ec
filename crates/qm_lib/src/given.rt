//! A source over bytes that a caller holds.

ghost use Rattle.std.specs.Prelude.{◌≡◌, ◌≤◌, ◌<◌, Some, length, take, IfOk, IfErr};
ghost use Rattle.def_io.specs.Faults.{HasCause};
ghost use Rattle.def_io.specs.Moves.{gave, IsEmptied};

use qm_io::{Failed, Source};

/// The bytes that were not read yet. No read fails.
#[derive(Drop)]
pub(crate) struct Given<'a> {
    left: &'a [u8],
}

impl<'a> Given<'a> {
    pub(crate) fn new(bytes: &'a [u8]) -> Self
        ensures { result.left.now ≡ bytes.now }
    {
        Given { left: bytes }
    }
}

impl<'a> Source for Given<'a> {
    ghost state = { λ s. record { told = Some s.left.now; faults = 0 } };

    fn read(&mut self, buf: &mut [u8]) -> Result<usize, Failed>
        ensures cause { HasCause 0 0 result }
        ensures fits { IfOk result (λ n. n ≤ length buf.old) }
        ensures gives { IfOk result (λ n. Some self.old.left.now ≡ gave (take n buf.new) (Some self.new.left.now)) }
        ensures end { IfOk result (λ n. n ≡ 0 → 0 < length buf.old → IsEmptied (Some self.new.left.now)) }
        ensures still { IfErr result (λ _. Some self.new.left.now ≡ Some self.old.left.now) }
    {
        let count = buf.len().min(self.left.len());
        let (piece, rest) = self.left.split_at(count);
        buf[..count].copy_from_slice(piece);
        self.left = rest;
        Ok(count)
    }
}
