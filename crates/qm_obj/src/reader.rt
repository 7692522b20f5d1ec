//! What is known of a text after some of its lines.

ghost use Rattle.std.specs.Prelude.{◌≡◌, ◌≢◌, ◌≤◌, ◌++◌, ◌∷◌, [], if◌then◌else◌, is_ok, length, None, IfOk, OnOk};
ghost use Rattle.std.specs.Prelude.{IfErr};
ghost use Rattle.def_text.specs.Text.{face_set};
ghost use Rattle.qm_obj.specs.Kept.{first_late, IsLate};
ghost use Rattle.qm_obj.specs.Lines.{line_as, next_said, Fits, Took};

use crate::Memory;
use crate::line::read_line;
use crate::used::{late_line, soup_of};
use def_text::{MAX_F_LINES, MAX_V_LINES, Micro, ObjFail, Reading, Soup};
use std::alloc::Global;

/// What is known of a text after some of its logical lines: all positions, and the faces with their lines.
#[derive(Drop)]
pub(crate) struct Reader {
    pub(crate) positions: Vec<[Micro; 3]>,
    pub(crate) faces: Vec<[u32; 4]>,
    pub(crate) lines: Vec<u32>,
    pub(crate) ghost fits: { Fits positions.items faces.items lines.items },
}

impl Reader {
    pub(crate) fn new(alloc: Global) -> Reader
        ensures positions { result.positions.items ≡ [] }
        ensures faces { result.faces.items ≡ [] }
        ensures lines { result.lines.items ≡ [] }
    {
        Reader {
            positions: Vec::new(alloc),
            faces: Vec::new(alloc),
            lines: Vec::new(alloc),
        }
    }

    /// Takes the next logical line, which has `size` bytes and this text, or answers its refusal.
    pub(crate) fn take(&mut self, line: u32, size: usize, text: &[u8]) -> Result<(), ObjFail>
        requires cut { length text.now ≤ size }
        ensures kept { OnOk result
            (Took self.old.positions.items self.new.positions.items self.old.faces.items self.new.faces.items
            self.old.lines.items self.new.lines.items
            (next_said self.old.positions.items self.old.faces.items (line_as line size text.now))) }
        ensures refused { IfErr result (λ fail. fail ≢ ObjFail.Memory →
            next_said self.old.positions.items self.old.faces.items (line_as line size text.now)
            ≡ Reading.Refused fail) }
    {
        match read_line(
            line,
            self.positions.len() as u32,
            self.faces.len() as u32,
            size,
            text,
        ) {
            Reading::Passed => Ok(()),
            Reading::Position(position) => Ok(push(
                &mut self.positions,
                position,
                MAX_V_LINES as usize,
            )?),
            Reading::Face { line, corners } => {
                Ok(push_face(&mut self.faces, &mut self.lines, corners, line)?)
            }
            Reading::Refused(fail) => Err(fail),
        }
    }

    /// The soup of all lines that were taken, or the refusal of the first face that names no position.
    #[tactic(auto, using(crate::proofs::SoupLemmas::none_late))]
    pub(crate) fn finish(self, alloc: Global) -> Result<Soup, ObjFail>
        ensures soup { IfOk result (λ soup.
            (first_late (length self.positions.items) self.faces.items self.lines.items ≡ None)
            × (soup ≡ face_set self.positions.items self.faces.items)) }
        ensures late { IfErr result (λ fail. fail ≢ ObjFail.Memory → IsLate fail
            (first_late (length self.positions.items) self.faces.items self.lines.items)) }
    {
        let Reader {
            positions,
            faces,
            lines,
            ..
        } = self;
        if let Some(line) = late_line(positions.len() as u32, &faces, &lines) {
            return Err(ObjFail::Range { line });
        }
        Ok(soup_of(alloc, positions, faces)?)
    }
}

/// The entries of a table that is no longer small.
const MANY: usize = 65_536;

/// Puts an entry at the end of a table. Where one that is no longer small is full, it takes all the room that it may
/// need. A page of memory counts once it is written, and the entries are copied no more.
fn push<T: Drop>(table: &mut Vec<T>, entry: T, most: usize) -> Result<(), Memory>
    ensures { table.new.items ≡ (if is_ok result then table.old.items ++ entry ∷ [] else table.old.items) }
{
    let len = table.len();
    if len >= MANY && len < most && len == table.capacity() {
        table.reserve(most - len)?;
    }
    table.push(entry)?;
    Ok(())
}

/// Puts a face and its line at the ends of their tables, or neither.
fn push_face(
    faces: &mut Vec<[u32; 4]>,
    lines: &mut Vec<u32>,
    corners: [u32; 4],
    line: u32,
) -> Result<(), Memory>
    ensures faces { faces.new.items ≡ (if is_ok result then faces.old.items ++ corners ∷ [] else faces.old.items) }
    ensures lines { lines.new.items ≡ (if is_ok result then lines.old.items ++ line ∷ [] else lines.old.items) }
{
    let count = lines.len();
    push(lines, line, MAX_F_LINES as usize)?;
    let pushed = push(faces, corners, MAX_F_LINES as usize);
    if pushed.is_err() {
        lines.truncate(count);
    }
    pushed
}
