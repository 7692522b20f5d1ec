//! The last head line of a text.

ghost use Rattle.std.specs.Prelude.{◌≡◌, ◌≤◌, ◌<◌, ◌^◌, Some, nat_eq, if◌then◌else◌, length, take, drop, IfSome};
ghost use Rattle.std.specs.Prelude.{MatchOption};
ghost use Rattle.std.specs.List.{starts_with};
ghost use Rattle.def_io.specs.Lines.{lines_of, tail_of};
ghost use Rattle.def_certtext.specs.HeadLine.{HasNoHead, HasNoLine, IsLastHead, IsLastLine};

use qm_io::{Lines, cut_line};

/// Where a head line stands: its number, from 0, and the position of its first byte.
#[derive(Clone, Copy, Debug, PartialEq, Eq)]
pub struct HeadAt {
    pub line: u32,
    pub at: u32,
}

/// The last line that begins with `#quadq 1 remesh`, from 0. Linear.
pub fn last_head(lines: &Lines) -> Option<u32>
    ensures { MatchOption result (HasNoHead (lines_of lines.now)) (IsLastHead (lines_of lines.now)) }
{
    match find_head(&lines.bytes) {
        Some(head) => Some(head.line),
        None => None,
    }
}

/// The last line of a text that begins with `#quadq 1 remesh`, and where it begins. Linear.
pub fn find_head(bytes: &[u8]) -> Option<HeadAt>
    requires { length bytes.now < 2 ^ 32 }
    ensures last { MatchOption result (HasNoHead (lines_of bytes.now))
        (λ head. IsLastHead (lines_of bytes.now) head.line) }
    ensures within { IfSome result (λ head. head.at ≤ length bytes.now) }
    ensures old { IfSome result (λ head. lines_of (take head.at bytes.now) ≡ take head.line (lines_of bytes.now)) }
    ensures written { IfSome result (λ head. drop head.at bytes.now ≡ tail_of head.line bytes.now) }
{
    find_last(bytes, b"#quadq 1 remesh")
}

/// The last line of a text that begins with this prefix, and where it begins. Linear.
pub fn find_last(bytes: &[u8], prefix: &[u8]) -> Option<HeadAt>
    requires { length bytes.now < 2 ^ 32 }
    ensures last { MatchOption result
        (HasNoLine (λ line. starts_with nat_eq line prefix.now) (lines_of bytes.now))
        (λ found. IsLastLine (λ line. starts_with nat_eq line prefix.now) (lines_of bytes.now) found.line) }
    ensures within { IfSome result (λ found. found.at ≤ length bytes.now) }
    ensures old { IfSome result (λ found. lines_of (take found.at bytes.now) ≡ take found.line (lines_of bytes.now)) }
    ensures written { IfSome result (λ found. drop found.at bytes.now ≡ tail_of found.line bytes.now) }
{
    let mut found = None;
    let mut rest = bytes;
    let mut i = 0;
    'lines: while let Some((line, behind)) = cut_line(rest) {
        let at = (bytes.len() - rest.len()) as u32;
        found = found_with(prefix, line, HeadAt { line: i, at }, found);
        i += 1;
        rest = behind;
    }
    found
}

/// The place of a line where it begins with this prefix, or what was found before it.
fn found_with(prefix: &[u8], line: &[u8], here: HeadAt, found: Option<HeadAt>) -> Option<HeadAt>
    ensures { result ≡ (if starts_with nat_eq line.now prefix.now then Some here else found) }
{
    if line.starts_with(prefix) {
        Some(here)
    } else {
        found
    }
}
