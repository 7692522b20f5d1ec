//! Reading a source to its end.

ghost use Rattle.std.specs.Prelude.{◌≡◌, ◌≤◌, ◌<◌, ◌^◌, length, IfOk, OnOk, IsErrOf};
ghost use Rattle.def_io.specs.Faults.{Rose};
ghost use Rattle.def_io.specs.Moves.{gave, IsEmptied, GaveMore};
ghost use Rattle.qm_io.specs.Gained.{Gained};

use crate::ends::ends_of;
use crate::lines::Lines;
use crate::traits::{Memory, Source};
use def_io::ReadFail;
use std::alloc::Global;

/// How many bytes one read gives at most.
const BUFFER: usize = 65_536;

/// Reads a source to its end, at most `limit` bytes, and finds the lines. Linear in the bytes.
pub fn read_lines<S: Source>(alloc: Global, src: &mut S, limit: u32) -> Result<Lines, ReadFail>
    requires { limit ≤ 2 ^ 29 }
    ensures bytes { IfOk result (λ text. (S.state src.old).told ≡ gave text (S.state src.new).told) }
    ensures whole { OnOk result (IsEmptied (S.state src.new).told) }
    ensures short { IfOk result (λ text. length text ≤ limit) }
    ensures calm { OnOk result ((S.state src.new).faults ≡ (S.state src.old).faults) }
    ensures later { (S.state src.old).faults ≤ (S.state src.new).faults }
    ensures fault { IsErrOf result ReadFail.Fault → Rose (S.state src.old).faults (S.state src.new).faults }
    ensures too_long { IsErrOf result ReadFail.TooLong →
        GaveMore limit (S.state src.old).told (S.state src.new).told
        × ((S.state src.new).faults ≡ (S.state src.old).faults) }
{
    let bytes = read_bytes(alloc, src, limit)?;
    let ends = ends_of(alloc, &bytes)?;
    Ok(Lines { bytes, ends })
}

/// Reads a source to its end, at most `limit` bytes. Linear in the bytes.
pub fn read_bytes<S: Source>(alloc: Global, src: &mut S, limit: u32) -> Result<Vec<u8>, ReadFail>
    requires { limit ≤ 2 ^ 29 }
    ensures bytes { IfOk result (λ text. (S.state src.old).told ≡ gave text.items (S.state src.new).told) }
    ensures whole { OnOk result (IsEmptied (S.state src.new).told) }
    ensures short { IfOk result (λ text. length text.items ≤ limit) }
    ensures calm { OnOk result ((S.state src.new).faults ≡ (S.state src.old).faults) }
    ensures later { (S.state src.old).faults ≤ (S.state src.new).faults }
    ensures fault { IsErrOf result ReadFail.Fault → Rose (S.state src.old).faults (S.state src.new).faults }
    ensures too_long { IsErrOf result ReadFail.TooLong →
        GaveMore limit (S.state src.old).told (S.state src.new).told
        × ((S.state src.new).faults ≡ (S.state src.old).faults) }
{
    let mut buffer = read_buffer(alloc)?;
    let mut bytes = Vec::new(alloc);
    'pieces: loop {
        if read_piece(src, &mut buffer, &mut bytes)? == 0 {
            return Ok(bytes);
        }
        if bytes.len() > limit as usize {
            return Err(ReadFail::TooLong);
        }
    }
}

/// A buffer for what one read gives, of 64 KiB.
pub fn read_buffer(alloc: Global) -> Result<Vec<u8>, Memory>
    ensures { IfOk result (λ buffer. length buffer.items ≡ BUFFER) }
{
    let buffer = vec![in alloc; 0u8; BUFFER]?;
    Ok(buffer)
}

/// Moves what one read gives behind the bytes, and says how much it was.
fn read_piece<S: Source>(
    src: &mut S,
    buffer: &mut [u8],
    bytes: &mut Vec<u8>,
) -> Result<usize, ReadFail>
    requires { 0 < length buffer.old }
    ensures gained { IfOk result (λ n. Gained bytes.old.items bytes.new.items (S.state src.old).told
        (S.state src.new).told n) }
    ensures end { IfOk result (λ n. n ≡ 0 → IsEmptied (S.state src.new).told) }
    ensures calm { OnOk result ((S.state src.new).faults ≡ (S.state src.old).faults) }
    ensures later { (S.state src.old).faults ≤ (S.state src.new).faults }
    ensures fault { IsErrOf result ReadFail.Fault → Rose (S.state src.old).faults (S.state src.new).faults }
    ensures short { IsErrOf result ReadFail.TooLong → ⊥ }
{
    let count = src.read(buffer)?;
    bytes.extend_from_slice(&buffer[..count])?;
    Ok(count)
}
