//! Joining physical lines to logical ones.

ghost use Rattle.std.specs.Prelude.{
  ◌≡◌,
  ◌≤◌,
  ◌<◌,
  ◌+◌,
  ◌++◌,
  [],
  length,
  slice_range,
  IfOk,
  IfErr,
  OnErr,
  OnOk,
};
ghost use Rattle.std.specs.List.{before_first};
ghost use Rattle.def_text.specs.Logical.{continues, first_group, is_hash, joined, with_space};
ghost use Rattle.qm_obj.specs.Ahead.{size_ahead, span, text_ahead};
ghost use Rattle.def_io.specs.Lines.{lines_of};

use crate::Memory;
use crate::piece::Logical;
use def_text::{BACKSLASH, HASH, MAX_LINE, ObjFail, SPACE};
use qm_io::Lines;
use qm_scan::find_byte;
use std::alloc::Global;

/// The logical line that begins with physical line `i` of the range that ends before `after`. Linear in its bytes.
#[tactic(auto, using(crate::proofs::Groups::group_text, crate::proofs::Groups::group_span))]
pub fn logical(alloc: Global, lines: &Lines, i: u32, after: u32) -> Result<Logical, Memory>
    requires begins { i < after }
    requires within { after ≤ length (lines_of lines.now) }
    ensures bytes { IfOk result (λ line.
        line.bytes.items ≡ joined (first_group (slice_range (lines_of lines.now) i after))) }
    ensures next { IfOk result (λ line.
        line.next ≡ i + length (first_group (slice_range (lines_of lines.now) i after))) }
{
    let rest = Rest {
        lines,
        first: i,
        after,
    };
    let Joined { bytes, next, .. } = join(alloc, &rest)?;
    Ok(Logical { bytes, next })
}

/// The physical lines from one up to but not including another.
#[derive(Clone, Copy)]
pub(crate) struct Rest<'a> {
    pub(crate) lines: &'a Lines,
    pub(crate) first: u32,
    pub(crate) after: u32,
    pub(crate) ghost some: { first < after },
    pub(crate) ghost within: { after ≤ length (lines_of lines.now) },
}

/// A logical line, and the sum of its physical lines' lengths.
#[derive(Drop)]
pub(crate) struct Joined {
    pub(crate) bytes: Vec<u8>,
    pub(crate) next: u32,
    pub(crate) size: usize,
}

pub(crate) fn join(alloc: Global, rest: &Rest) -> Result<Joined, Memory>
    ensures bytes { let ahead = slice_range (lines_of rest.now.lines.now) rest.now.first rest.now.after in
        IfOk result (λ line. line.bytes.items ≡ text_ahead ahead) }
    ensures next { let ahead = slice_range (lines_of rest.now.lines.now) rest.now.first rest.now.after in
        IfOk result (λ line. line.next ≡ rest.now.first + span ahead) }
    ensures size { let ahead = slice_range (lines_of rest.now.lines.now) rest.now.first rest.now.after in
        IfOk result (λ line. line.size ≡ size_ahead ahead) }
{
    let mut bytes = Vec::new(alloc);
    let mut next = rest.first;
    while next < rest.after {
        let line = rest.lines.line(next);
        next += 1;
        if !goes_on(line) {
            let size = bytes.len() + line.len();
            bytes.extend_from_slice(before_comment(line))?;
            return Ok(Joined { bytes, next, size });
        }
        push_spaced(&mut bytes, line)?;
    }
    let size = bytes.len();
    Ok(Joined { bytes, next, size })
}

/// Whether the next physical line is joined to this one.
#[tactic(auto, using(crate::proofs::JoinLemmas::no_hash))]
pub(crate) fn goes_on(line: &[u8]) -> bool
    ensures { result ≡ continues line.now }
{
    match line {
        [] => false,
        [.., last] => *last == BACKSLASH && find_byte(line, HASH) == line.len(),
    }
}

/// A line up to its comment.
pub(crate) fn before_comment(line: &[u8]) -> &[u8]
    ensures { result.now ≡ before_first is_hash line.now }
{
    &line[..find_byte(line, HASH)]
}

fn push_spaced(bytes: &mut Vec<u8>, line: &[u8]) -> Result<(), Memory>
    ensures { OnOk result (bytes.new.items ≡ bytes.old.items ++ with_space line.now) }
{
    if let [prefix @ .., _] = line {
        bytes.extend_from_slice(prefix)?;
    }
    bytes.push(SPACE)?;
    Ok(())
}

/// Takes the room of the longest line at once for bytes that are kept of a line.
fn make_room(bytes: &mut Vec<u8>) -> Result<(), ObjFail>
    ensures same { bytes.new.items ≡ bytes.old.items }
    ensures memory { IfErr result (λ fail. fail ≡ ObjFail.Memory) }
{
    if bytes.capacity() > 0 {
        return Ok(());
    }
    bytes.reserve(MAX_LINE + 1)?;
    Ok(())
}

/// Puts bytes behind others.
pub(crate) fn append(bytes: &mut Vec<u8>, more: &[u8]) -> Result<(), ObjFail>
    ensures grown { OnOk result (bytes.new.items ≡ bytes.old.items ++ more.now) }
    ensures still { OnErr result (bytes.new.items ≡ bytes.old.items) }
    ensures memory { IfErr result (λ fail. fail ≡ ObjFail.Memory) }
{
    make_room(bytes)?;
    bytes.extend_from_slice(more)?;
    Ok(())
}

/// The same with a line that goes on, and a space for its backslash. Where memory is refused, no byte is left.
pub(crate) fn append_spaced(bytes: &mut Vec<u8>, line: &[u8]) -> Result<(), ObjFail>
    ensures grown { OnOk result (bytes.new.items ≡ bytes.old.items ++ with_space line.now) }
    ensures dropped { OnErr result (bytes.new.items ≡ []) }
    ensures memory { IfErr result (λ fail. fail ≡ ObjFail.Memory) }
{
    if make_room(bytes).is_ok() && push_spaced(bytes, line).is_ok() {
        return Ok(());
    }
    bytes.clear();
    Err(ObjFail::Memory)
}
