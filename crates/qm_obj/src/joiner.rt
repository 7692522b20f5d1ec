//! Physical lines that are taken one by one, and joined to logical ones.

ghost use Rattle.std.specs.Prelude.{◌≡◌, ◌≢◌, ◌≤◌, ◌<◌, ◌-◌, ◌^◌, [], false, true, length, Ok, Err, IfOk, OnOk, IfErr};
ghost use Rattle.std.specs.List.{list_any};
ghost use Rattle.def_feed.specs.Kept.{kept_readings, soup_with_lines};
ghost use Rattle.def_io.specs.Bytes.{Lines};
ghost use Rattle.def_text.specs.Logical.{continues, is_hash};
ghost use Rattle.def_text.specs.Text.{soup_of, text_soup};
ghost use Rattle.def_text.specs.declared.limits.TheConstants.{MAX_LINE};
ghost use Rattle.qm_obj.specs.Feeding.{number_by, RefusesLine, TookLine};

use crate::joining::{append, append_spaced, before_comment, goes_on};
use crate::reader::Reader;
use def_text::{MAX_F_LINES, MAX_LINE, MAX_V_LINES, ObjFail, Soup, Which};
use std::alloc::Global;

/// What the logical lines say that have ended, and what is left to read of the one that has not.
#[derive(Drop)]
pub(crate) struct Joiner {
    pub(crate) reader: Reader,
    /// The number of the physical line that comes next.
    pub(crate) next: u32,
    /// The number of the first physical line that is joined.
    pub(crate) begun: u32,
    pub(crate) joined: Vec<u8>,
    pub(crate) ghost bare: { list_any is_hash joined.items ≡ false },
    pub(crate) ghost short: { length joined.items ≤ MAX_LINE },
}

impl Joiner {
    ghost use Rattle.qm_obj.specs.Views.{kept_of};

    pub(crate) fn new(alloc: Global) -> Joiner
        ensures same { (lines : Lines) → soup_with_lines (kept_of result []) lines ≡ text_soup 1 lines }
        ensures next { result.next ≡ 1 }
        ensures joined { result.joined.items ≡ [] }
    {
        Joiner {
            reader: Reader::new(alloc),
            next: 1,
            begun: 1,
            joined: Vec::new(alloc),
        }
    }

    /// The number of the logical line to which the next physical line belongs.
    pub(crate) fn number(&self) -> u32
        ensures { result ≡ number_by self.now.joined.items self.now.next self.now.begun }
    {
        match self.joined.as_slice() {
            [] => self.next,
            _ => self.begun,
        }
    }

    /// Takes the next physical line, or answers the refusal of the logical line to which it belongs.
    pub(crate) fn take(&mut self, line: &[u8]) -> Result<(), ObjFail>
        requires room { self.old.next < 2 ^ 32 - 1 }
        ensures took { OnOk result (TookLine (kept_of self.old []) (kept_of self.new []) line.now) }
        ensures refused { IfErr result (λ fail. fail ≢ ObjFail.Memory →
            RefusesLine (kept_of self.old []) line.now fail) }
    {
        if goes_on(line) {
            self.hold(line)
        } else {
            self.end(line)
        }
    }

    /// Keeps a physical line that goes on with the next.
    fn hold(&mut self, line: &[u8]) -> Result<(), ObjFail>
        requires room { self.old.next < 2 ^ 32 - 1 }
        requires more { continues line.now ≡ true }
        ensures took { OnOk result (TookLine (kept_of self.old []) (kept_of self.new []) line.now) }
        ensures refused { IfErr result (λ fail. fail ≢ ObjFail.Memory →
            RefusesLine (kept_of self.old []) line.now fail) }
    {
        let number = self.number();
        if self.joined.len() + line.len() > MAX_LINE {
            return Err(too_long(number));
        }
        append_spaced(&mut self.joined, line)?;
        self.begun = number;
        self.next += 1;
        Ok(())
    }

    /// Reads a physical line with those that are joined before it.
    fn end(&mut self, line: &[u8]) -> Result<(), ObjFail>
        requires room { self.old.next < 2 ^ 32 - 1 }
        requires ends { continues line.now ≡ false }
        ensures took { OnOk result (TookLine (kept_of self.old []) (kept_of self.new []) line.now) }
        ensures refused { IfErr result (λ fail. fail ≢ ObjFail.Memory →
            RefusesLine (kept_of self.old []) line.now fail) }
    {
        if self.joined.is_empty() {
            self.reader.take(self.next, line.len(), line)?;
            self.next += 1;
            return Ok(());
        }
        let size = self.joined.len() + line.len();
        if size > MAX_LINE {
            return Err(too_long(self.begun));
        }
        append(&mut self.joined, before_comment(line))?;
        let read = self.reader.take(self.begun, size, &self.joined);
        self.joined.clear();
        read?;
        self.next += 1;
        Ok(())
    }

    /// Reads the lines that wait for one that does not come.
    fn read_rest(&mut self) -> Result<(), ObjFail>
        ensures same { OnOk result
            (soup_with_lines (kept_of self.old []) [] ≡ soup_of (kept_readings (kept_of self.new []))) }
        ensures refused { IfErr result (λ fail. fail ≢ ObjFail.Memory →
            soup_with_lines (kept_of self.old []) [] ≡ Err fail) }
    {
        if self.joined.is_empty() {
            return Ok(());
        }
        self.reader
            .take(self.begun, self.joined.len(), &self.joined)?;
        self.joined.clear();
        Ok(())
    }

    /// The soup of all lines that were taken, or their first refusal.
    pub(crate) fn finish(self, alloc: Global) -> Result<Soup, ObjFail>
        ensures soup { IfOk result (λ soup. soup_with_lines (kept_of self []) [] ≡ Ok soup) }
        ensures few { IfOk result (λ soup. (length soup.pos ≤ MAX_V_LINES) × (length soup.faces ≤ MAX_F_LINES)) }
        ensures refused { IfErr result (λ fail. fail ≢ ObjFail.Memory →
            soup_with_lines (kept_of self []) [] ≡ Err fail) }
    {
        let mut joiner = self;
        joiner.read_rest()?;
        joiner.reader.finish(alloc)
    }
}

/// The refusal of a line that is above the limit.
pub(crate) fn too_long(line: u32) -> ObjFail
    ensures { result ≡ ObjFail.Limit Which.Line line }
{
    ObjFail::Limit {
        which: Which::Line,
        line,
    }
}
