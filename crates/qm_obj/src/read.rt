//! From lines to a soup, or to the first refusal.

ghost use Rattle.std.specs.Prelude.{◌≡◌, ◌≢◌, ◌≤◌, ◌+◌, Ok, Err, length, slice_range, IfOk, OnOk, IfErr};
ghost use Rattle.def_text.specs.Text.{text_soup};
ghost use Rattle.def_text.specs.declared.reading.Reading.TheVariants.{Refused};
ghost use Rattle.def_io.specs.Lines.{lines_of};
ghost use Rattle.qm_obj.specs.Ahead.{span};
ghost use Rattle.qm_obj.specs.Lines.{first_logical, next_said, Took};

use crate::joining::{Rest, goes_on, join};
use crate::reader::Reader;
use def_text::{MAX_F_LINES, MAX_V_LINES, ObjFail, Soup};
use qm_io::Lines;
use std::alloc::Global;

/// The soup of the lines from `first` up to but not including `after`, or their first refusal, whose line counts
/// from the first of `lines`. Linear.
pub fn read_obj(alloc: Global, lines: &Lines, first: u32, after: u32) -> Result<Soup, ObjFail>
    requires order { first ≤ after }
    requires within { after ≤ length (lines_of lines.now) }
    ensures soup { IfOk result (λ soup.
        text_soup (first + 1) (slice_range (lines_of lines.now) first after) ≡ Ok soup) }
    ensures few { IfOk result (λ soup. (length soup.pos ≤ MAX_V_LINES) × (length soup.faces ≤ MAX_F_LINES)) }
    ensures refused { IfErr result (λ fail. fail ≢ ObjFail.Memory
        → text_soup (first + 1) (slice_range (lines_of lines.now) first after) ≡ Err fail) }
{
    let mut reader = Reader::new(alloc);
    let mut i = first;
    while i < after {
        let rest = Rest {
            lines,
            first: i,
            after,
        };
        i = take_logical(alloc, &mut reader, &rest)?;
    }
    reader.finish(alloc)
}

/// Takes the next logical line, and answers the first physical line that is not joined to it.
#[tactic(auto, using(crate::proofs::Groups::single_span))]
fn take_logical(alloc: Global, reader: &mut Reader, rest: &Rest) -> Result<u32, ObjFail>
    ensures next { let ahead = slice_range (lines_of rest.now.lines.now) rest.now.first rest.now.after in
        IfOk result (λ next. next ≡ rest.now.first + span ahead) }
    ensures kept { let ahead = slice_range (lines_of rest.now.lines.now) rest.now.first rest.now.after in
        OnOk result
        (Took reader.old.positions.items reader.new.positions.items reader.old.faces.items reader.new.faces.items
        reader.old.lines.items reader.new.lines.items
        (next_said reader.old.positions.items reader.old.faces.items (first_logical (rest.now.first + 1) ahead))) }
    ensures refused { let ahead = slice_range (lines_of rest.now.lines.now) rest.now.first rest.now.after in
        IfErr result (λ fail. fail ≢ ObjFail.Memory →
        next_said reader.old.positions.items reader.old.faces.items (first_logical (rest.now.first + 1) ahead)
        ≡ Refused fail) }
{
    let line = rest.lines.line(rest.first);
    if goes_on(line) {
        return take_joined(alloc, reader, rest);
    }
    reader.take(rest.first + 1, line.len(), line)?;
    Ok(rest.first + 1)
}

fn take_joined(alloc: Global, reader: &mut Reader, rest: &Rest) -> Result<u32, ObjFail>
    ensures next { let ahead = slice_range (lines_of rest.now.lines.now) rest.now.first rest.now.after in
        IfOk result (λ next. next ≡ rest.now.first + span ahead) }
    ensures kept { let ahead = slice_range (lines_of rest.now.lines.now) rest.now.first rest.now.after in
        OnOk result
        (Took reader.old.positions.items reader.new.positions.items reader.old.faces.items reader.new.faces.items
        reader.old.lines.items reader.new.lines.items
        (next_said reader.old.positions.items reader.old.faces.items (first_logical (rest.now.first + 1) ahead))) }
    ensures refused { let ahead = slice_range (lines_of rest.now.lines.now) rest.now.first rest.now.after in
        IfErr result (λ fail. fail ≢ ObjFail.Memory →
        next_said reader.old.positions.items reader.old.faces.items (first_logical (rest.now.first + 1) ahead)
        ≡ Refused fail) }
{
    let joined = join(alloc, rest)?;
    reader.take(rest.first + 1, joined.size, &joined.bytes)?;
    Ok(joined.next)
}
