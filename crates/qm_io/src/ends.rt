//! Where the pieces of a text end.

ghost use Rattle.std.specs.Prelude.{◌≡◌, ◌≤◌, ◌<◌, ◌-◌, ◌^◌, ◌==◌};
ghost use Rattle.std.specs.Prelude.{◌∷◌, [], false, length, take, drop, slice_index};
ghost use Rattle.std.specs.Prelude.{IfOk, IfSome, IfNone, MatchOption};
ghost use Rattle.std.specs.List.{list_any};
ghost use Rattle.def_io.specs.Lines.{lines_of, pieces, tail_of};
ghost use Rattle.qm_io.specs.Ends.{ends_from};

use crate::lines::line_of;
use def_io::LINE_FEED;
use memchr::memchr;
use std::alloc::{AllocError, Global};

/// The position after the first line feed, where there is one. Linear.
pub fn end_of_line(bytes: &[u8]) -> Option<usize>
    ensures more { IfSome result (λ end. 0 < end) }
    ensures within { IfSome result (λ end. end ≤ length bytes.now) }
    ensures feed { IfSome result (λ end. slice_index bytes.now (end - 1) ≡ LINE_FEED) }
    ensures first { IfSome result (λ end. list_any (λ byte. byte == LINE_FEED) (take (end - 1) bytes.now) ≡ false) }
    ensures none { IfNone result (list_any (λ byte. byte == LINE_FEED) bytes.now ≡ false) }
{
    match memchr(LINE_FEED, bytes) {
        Some(at) => Some(at + 1),
        None => None,
    }
}

/// The position after the piece that begins at `start`.
fn end_of_piece(bytes: &[u8], start: usize) -> usize
    requires { start < length bytes.now }
    ensures more { start < result }
    ensures within { result ≤ length bytes.now }
    ensures first { pieces (drop start bytes.now)
        ≡ take (result - start) (drop start bytes.now) ∷ pieces (drop result bytes.now) }
{
    match memchr(LINE_FEED, &bytes[start..]) {
        Some(ahead) => start + ahead + 1,
        None => bytes.len(),
    }
}

/// The first line of a text without its end, and what stands behind it. Linear in the line.
pub fn cut_line(bytes: &[u8]) -> Option<(&[u8], &[u8])>
    ensures line { MatchOption result (bytes.now ≡ []) (λ cut. lines_of bytes.now ≡ cut.0.now ∷ lines_of cut.1.now) }
    ensures rest { IfSome result (λ cut. cut.1.now ≡ tail_of 1 bytes.now) }
    ensures shorter { IfSome result (λ cut. length cut.1.now < length bytes.now) }
{
    if bytes.is_empty() {
        return None;
    }
    let (piece, rest) = bytes.split_at(end_of_piece(bytes, 0));
    Some((line_of(piece), rest))
}

/// The position after each piece of the text.
pub(crate) fn ends_of(alloc: Global, bytes: &[u8]) -> Result<Vec<u32>, AllocError>
    requires { length bytes.now < 2 ^ 32 }
    ensures { IfOk result (λ ends. ends.items ≡ ends_from 0 (pieces bytes.now)) }
{
    let mut ends = Vec::new(alloc);
    let mut at = 0;
    while at < bytes.len() {
        at = end_of_piece(bytes, at);
        ends.push(at as u32)?;
    }
    Ok(ends)
}
