//! A text and its physical lines.

ghost use Rattle.std.specs.Prelude.{◌≡◌, ◌≤◌, ◌<◌, ◌-◌, ◌^◌, []};
ghost use Rattle.std.specs.Prelude.{◌∷◌, length, slice_index, slice_index_or, if◌then◌else◌, ◌==◌};
ghost use Rattle.def_io.specs.Lines.{line_of, lines_of, pieces, tail_of, without_last};
ghost use Rattle.qm_io.specs.Ends.{ends_from};

use def_io::{CARRIAGE_RETURN, LINE_FEED};
use std::marker::Model;

/// All bytes of a text, and the position after each of its physical lines and their ends.
#[derive(Debug, Drop)]
pub struct Lines {
    pub bytes: Vec<u8>,
    pub ends: Vec<u32>,
}

impl Model for Lines {
    ghost use Rattle.std.specs.Prelude.{◌≡◌, ◌<◌, ◌^◌, ℕ, List, length};
    ghost use Rattle.def_io.specs.Lines.{pieces};
    ghost use Rattle.qm_io.specs.Ends.{ends_from};

    ghost Value = { List ℕ };

    ghost view = { λ s. s.bytes.items };

    ghost invariant = { λ s. (s.ends.items ≡ ends_from 0 (pieces s.bytes.items)) × (length s.bytes.items < 2 ^ 32) };
}

impl Lines {
    /// The number of physical lines.
    pub fn count(&self) -> u32
        ensures { result ≡ length (lines_of self.now) }
    {
        line_count(&self.bytes, &self.ends)
    }

    /// Physical line `i` without its end.
    pub fn line(&self, i: u32) -> &[u8]
        requires { i < length (lines_of self.now) }
        ensures { result.now ≡ slice_index_or (lines_of self.now) i [] }
    {
        line_at(&self.bytes, &self.ends, i as usize)
    }

    /// All bytes from the first of line `i` to the end of the input, line ends included.
    pub fn tail(&self, i: u32) -> &[u8]
        requires { i < length (lines_of self.now) }
        ensures { result.now ≡ tail_of i self.now }
    {
        tail_at(&self.bytes, &self.ends, i as usize)
    }
}

fn line_count(bytes: &[u8], ends: &[u32]) -> u32
    requires cut { ends.now ≡ ends_from 0 (pieces bytes.now) }
    requires few { length bytes.now < 2 ^ 32 }
    ensures { result ≡ length (lines_of bytes.now) }
{
    let _text = bytes;
    ends.len() as u32
}

/// The position where piece `i` begins.
fn start_of(ends: &[u32], i: usize) -> usize
    requires { i ≤ length ends.now }
    ensures { result ≡ slice_index (0 ∷ ends.now) i }
{
    if i == 0 { 0 } else { ends[i - 1] as usize }
}

/// The position where piece `i` ends.
fn end_of(ends: &[u32], i: usize) -> usize
    requires { i < length ends.now }
    ensures { result ≡ slice_index ends.now i }
{
    ends[i] as usize
}

fn piece_at<'a>(bytes: &'a [u8], ends: &[u32], i: usize) -> &'a [u8]
    requires cut { ends.now ≡ ends_from 0 (pieces bytes.now) }
    requires there { i < length (lines_of bytes.now) }
    ensures { result.now ≡ slice_index_or (pieces bytes.now) i [] }
{
    &bytes[start_of(ends, i)..end_of(ends, i)]
}

fn line_at<'a>(bytes: &'a [u8], ends: &[u32], i: usize) -> &'a [u8]
    requires cut { ends.now ≡ ends_from 0 (pieces bytes.now) }
    requires there { i < length (lines_of bytes.now) }
    ensures { result.now ≡ slice_index_or (lines_of bytes.now) i [] }
{
    line_of(piece_at(bytes, ends, i))
}

/// A piece of a text without its line feed, and then without a carriage return at its end.
pub fn line_of(piece: &[u8]) -> &[u8]
    ensures { result.now ≡ line_of piece.now }
{
    strip_last(strip_last(piece, LINE_FEED), CARRIAGE_RETURN)
}

fn strip_last(piece: &[u8], byte: u8) -> &[u8]
    ensures { result.now ≡ without_last byte piece.now }
{
    match piece {
        [prefix @ .., last] if *last == byte => prefix,
        _ => piece,
    }
}

fn tail_at<'a>(bytes: &'a [u8], ends: &[u32], i: usize) -> &'a [u8]
    requires cut { ends.now ≡ ends_from 0 (pieces bytes.now) }
    requires there { i < length (lines_of bytes.now) }
    ensures { result.now ≡ tail_of i bytes.now }
{
    &bytes[start_of(ends, i)..]
}
