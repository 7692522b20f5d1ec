//! The edges that the `l` lines of a text mark.

ghost use Rattle.std.specs.Prelude.{◌≡◌, ◌≢◌, ◌≤◌, ◌<◌, ◌+◌, ◌∷◌, ◌||◌, [], false, nat_lt, not, Ok};
ghost use Rattle.std.specs.Prelude.{Err, IfOk, IfErr, OnOk, cond, length, slice_range};
ghost use Rattle.std.specs.List.{before_first, count_by};
ghost use Rattle.def_marks.specs.Lines.{corner_fails, line_fails, marks_of, text_lines, vertex_lines_in};
ghost use Rattle.def_feature.specs.Marks.{AreMarks};
ghost use Rattle.def_io.specs.Lines.{lines_of};
ghost use Rattle.def_text.specs.Logical.{continues, is_hash, logical_lines};
ghost use Rattle.def_text.specs.Reading.{begins_with, is_letter, is_vertex_line};
ghost use Rattle.def_text.specs.Words.{words};
ghost use Rattle.qm_marks.specs.Reading.{line_at, placed_at, IsBegun, IsReading, TookCorners, TookLine};
ghost use Rattle.qm_obj.specs.Ahead.{span};
ghost use Rattle.qm_obj.specs.Lines.{first_logical};

use crate::Memory;
use crate::chain::mark_chain;
use crate::corners::{Names, Place, named_vertices, names_nothing, read_corners};
use crate::ends::sorted_ends;
use crate::words::first_word;
use def_marks::{LINE, MarkFail};
use def_text::{BACKSLASH, HASH, Index, MAX_V_LINES, Soup, VERTEX};
use qm_io::Lines;
use qm_mesh::Mesh;
use qm_obj::logical;
use qm_scan::find_byte;
use std::alloc::Global;

/// A mark for each dart: whether it has a twin, and the lines from `first` up to but not including `after` mark its
/// edge. Else the first refusal of these lines, which count from the first of `lines`. They are those of the soup,
/// whose faces are the mesh. Linear but for searches, which are logarithmic.
pub fn read_marks(
    alloc: Global,
    lines: &Lines,
    first: u32,
    after: u32,
    soup: &Soup,
    mesh: &Mesh,
) -> Result<Vec<bool>, MarkFail>
    requires order { first ≤ after }
    requires within { after ≤ length (lines_of lines.now) }
    requires few { length soup.now.names ≤ MAX_V_LINES }
    requires mesh { mesh.now ≡ soup.now.faces }
    ensures marks { IfOk result (λ marks. marks_of soup.now
        (text_lines (logical_lines (first + 1) (slice_range (lines_of lines.now) first after))) ≡ Ok marks.items) }
    ensures inner { IfOk result (λ marks. AreMarks mesh.now marks.items) }
    ensures refused { IfErr result (λ fail. fail ≢ MarkFail.Memory → marks_of soup.now
        (text_lines (logical_lines (first + 1) (slice_range (lines_of lines.now) first after))) ≡ Err fail) }
{
    let _known = mesh.faces();
    let given = Given {
        lines,
        after,
        soup,
        mesh,
    };
    let all = count_vertex_lines(alloc, lines, first, after)?;
    let mut reader = MarkReader::new(alloc, mesh, all)?;
    let mut i = first;
    while i < after {
        i = take_logical(alloc, &mut reader, &given, i)?;
    }
    Ok(reader.marks)
}

/// The lines of a text up to but not including one, with the soup and the mesh that it has.
#[derive(Clone, Copy)]
struct Given<'a> {
    lines: &'a Lines,
    after: u32,
    soup: &'a Soup,
    mesh: &'a Mesh,
    ghost within: { after ≤ length (lines_of lines.now) },
}

/// Takes the logical line that begins with physical line `i`, and answers the first that is not joined to it.
#[tactic(auto, using(qm_obj::proofs::Groups::group_span, qm_obj::proofs::Groups::single_span))]
fn take_logical(
    alloc: Global,
    reader: &mut MarkReader,
    given: &Given,
    i: u32,
) -> Result<u32, MarkFail>
    requires begins { i < given.now.after }
    requires reads { IsReading given.now.soup.now given.now.mesh.now reader.old }
    requires room { reader.old.before
        + vertex_lines_in (first_logical (i + 1) (slice_range (lines_of given.now.lines.now) i given.now.after))
        ≤ reader.old.all }
    ensures next { IfOk result (λ next.
        next ≡ i + span (slice_range (lines_of given.now.lines.now) i given.now.after)) }
    ensures took { OnOk result (TookLine given.now.soup.now reader.old reader.new
        (first_logical (i + 1) (slice_range (lines_of given.now.lines.now) i given.now.after))) }
    ensures refused { IfErr result (λ fail. fail ≢ MarkFail.Memory → line_fails given.now.soup.now
        (placed_at reader.old.all reader.old.before
        (first_logical (i + 1) (slice_range (lines_of given.now.lines.now) i given.now.after))) ≡ fail ∷ []) }
{
    let after = given.after;
    let line = given.lines.line(i);
    if may_go_on(line) {
        let joined = logical(alloc, given.lines, i, after)?;
        reader.take(given.soup, given.mesh, i + 1, &joined.bytes)?;
        return Ok(joined.next);
    }
    reader.take(given.soup, given.mesh, i + 1, before_comment(line))?;
    Ok(i + 1)
}

/// How many `v` lines there are from `first` up to but not including `after`.
pub(crate) fn count_vertex_lines(
    alloc: Global,
    lines: &Lines,
    first: u32,
    after: u32,
) -> Result<u32, Memory>
    requires order { first ≤ after }
    requires within { after ≤ length (lines_of lines.now) }
    ensures { IfOk result (λ count. count ≡ count_by is_vertex_line
        (logical_lines (first + 1) (slice_range (lines_of lines.now) first after))) }
{
    let mut count = 0;
    let mut i = first;
    while i < after {
        let line = lines.line(i);
        if may_go_on(line) {
            let joined = logical(alloc, lines, i, after)?;
            count += vertices_of(&joined.bytes);
            i = joined.next;
        } else {
            count += vertices_of(before_comment(line));
            i += 1;
        }
    }
    Ok(count)
}

/// Whether a line ends as one does that goes on.
fn may_go_on(line: &[u8]) -> bool
    ensures { result ≡ false → continues line.now ≡ false }
{
    match line {
        [] => false,
        [.., last] => *last == BACKSLASH,
    }
}

/// A line up to its comment.
fn before_comment(line: &[u8]) -> &[u8]
    ensures { result.now ≡ before_first is_hash line.now }
{
    &line[..find_byte(line, HASH)]
}

/// 1 for the text of a `v` line, and 0 for any other.
fn vertices_of(text: &[u8]) -> u32
    ensures { result ≡ cond (begins_with VERTEX (words (text.now))) 1 0 }
{
    let (word, _) = first_word(text);
    u32::from(is_one(word, VERTEX))
}

/// Whether there are fewer corners than two, or some word is none.
fn lacks_corners(count: usize, right: bool) -> bool
    ensures { result ≡ (nat_lt count 2 || not right) }
{
    count < 2 || !right
}

/// Whether a word is this one letter.
fn is_one(word: &[u8], letter: u8) -> bool
    ensures { result ≡ is_letter letter word.now }
{
    match word {
        [byte] => *byte == letter,
        _ => false,
    }
}

/// What is known of a text after some of its logical lines.
#[derive(Drop)]
struct MarkReader {
    /// How many `v` lines there are in all, and among those that were taken.
    all: u32,
    before: u32,
    /// Where darts are found by their ends.
    keys: Vec<u128>,
    /// The marks of the lines that were taken.
    marks: Vec<bool>,
    /// Room for the corners of a line and their vertices.
    indices: Vec<Index>,
    chain: Vec<u32>,
}

impl MarkReader {
    fn new(alloc: Global, mesh: &Mesh, all: u32) -> Result<MarkReader, Memory>
        ensures begun { IfOk result (IsBegun mesh.now all) }
    {
        let _known = mesh.faces();
        let keys = sorted_ends(alloc, mesh)?;
        let marks = vec![in alloc; false; 4 * mesh.faces().len()]?;
        Ok(MarkReader {
            all,
            before: 0,
            keys,
            marks,
            indices: Vec::new(alloc),
            chain: Vec::new(alloc),
        })
    }

    /// Takes the next logical line, which has this text, or answers why it is refused.
    fn take(&mut self, soup: &Soup, mesh: &Mesh, number: u32, text: &[u8]) -> Result<(), MarkFail>
        requires reads { IsReading soup.now mesh.now self.old }
        requires room { self.old.before + vertex_lines_in (line_at number (text.now))
            ≤ self.old.all }
        ensures took { OnOk result
            (TookLine soup.now self.old self.new (line_at number (text.now))) }
        ensures refused { IfErr result (λ fail. fail ≢ MarkFail.Memory → line_fails soup.now
            (placed_at self.old.all self.old.before (line_at number (text.now))) ≡ fail ∷ []) }
    {
        let (word, rest) = first_word(text);
        if is_one(word, VERTEX) {
            self.before += 1;
            return Ok(());
        }
        if is_one(word, LINE) {
            return self.take_corners(soup, mesh, number, rest);
        }
        Ok(())
    }

    /// Takes the corners of an `l` line, or answers why they are refused.
    fn take_corners(
        &mut self,
        soup: &Soup,
        mesh: &Mesh,
        number: u32,
        text: &[u8],
    ) -> Result<(), MarkFail>
        requires reads { IsReading soup.now mesh.now self.old }
        ensures took { OnOk result (TookCorners soup.now self.old self.new number (words (text.now))) }
        ensures refused { IfErr result (λ fail. fail ≢ MarkFail.Memory → corner_fails soup.now
            self.old.all self.old.before number (words (text.now)) ≡ fail ∷ []) }
    {
        self.indices.clear();
        self.chain.clear();
        let place = Place {
            all: self.all,
            before: self.before,
        };
        let right = read_corners(text, place, &mut self.indices)?;
        if lacks_corners(self.indices.len(), right) {
            return Err(MarkFail::Syntax { line: number });
        }
        if names_nothing(&self.indices) {
            return Err(MarkFail::Range { line: number });
        }
        let names = Names { all: &soup.names };
        named_vertices(&names, &self.indices, &mut self.chain)?;
        if !mark_chain(mesh, &self.keys, &self.chain, &mut self.marks) {
            return Err(MarkFail::NotEdge { line: number });
        }
        Ok(())
    }
}
