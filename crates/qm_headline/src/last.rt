//! Where the last head line of a text stands.

ghost use Rattle.std.specs.Prelude.{◌≡◌, ◌≤◌, ◌<◌, ◌^◌, length, take, drop, IfSome, MatchOption};
ghost use Rattle.def_io.specs.Lines.{lines_of, tail_of};
ghost use Rattle.def_run.specs.MarkLines.{HasNoMark, IsLastMark};

use qm_certtext::{HeadAt, find_last};

/// The last line of a text that begins with `#quadq 1 `, and where it begins. Linear.
pub fn find_mark(bytes: &[u8]) -> Option<HeadAt>
    requires { length bytes.now < 2 ^ 32 }
    ensures last { MatchOption result (HasNoMark (lines_of bytes.now))
        (λ mark. IsLastMark (lines_of bytes.now) mark.line) }
    ensures within { IfSome result (λ mark. mark.at ≤ length bytes.now) }
    ensures old { IfSome result (λ mark. lines_of (take mark.at bytes.now) ≡ take mark.line (lines_of bytes.now)) }
    ensures written { IfSome result (λ mark. drop mark.at bytes.now ≡ tail_of mark.line bytes.now) }
{
    find_last(bytes, b"#quadq 1 ")
}
