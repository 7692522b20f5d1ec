//! Pieces of a text that are cut anywhere, and the physical lines that end in them.

ghost use Rattle.std.specs.Prelude.{◌≡◌, ◌≢◌, ◌≤◌, ◌<◌, ◌+◌, ◌-◌, ◌^◌, ◌++◌, ◌∷◌, [], false, length, Ok, Err, IfOk};
ghost use Rattle.std.specs.Prelude.{OnOk, IfErr};
ghost use Rattle.std.specs.List.{list_any};
ghost use Rattle.def_feed.specs.Feed.{is_line_feed};
ghost use Rattle.def_feed.specs.Kept.{soup_with, soup_with_lines};
ghost use Rattle.def_io.specs.Bytes.{Bytes};
ghost use Rattle.def_text.specs.Text.{soup_in};
ghost use Rattle.def_text.specs.declared.limits.TheConstants.{MAX_LINE};
ghost use Rattle.qm_obj.specs.Feeding.{RefusesPiece, TookPiece};

use crate::joiner::{Joiner, too_long};
use crate::joining::append;
use def_io::LINE_FEED;
use def_text::{MAX_F_LINES, MAX_LINE, MAX_V_LINES, ObjFail, Soup};
use qm_io::{end_of_line, line_of};
use std::alloc::Global;

/// How far a text is read: up to its last line feed, with the bytes behind that.
#[derive(Drop)]
pub(crate) struct Progress {
    pub(crate) joiner: Joiner,
    pub(crate) tail: Vec<u8>,
    pub(crate) ghost unended: { list_any is_line_feed tail.items ≡ false },
    pub(crate) ghost short: { length joiner.joined.items + length tail.items ≤ MAX_LINE + 1 },
}

impl Progress {
    ghost use Rattle.qm_obj.specs.Views.{kept_at, kept_of};

    pub(crate) fn new(alloc: Global) -> Progress
        ensures same { (more : Bytes) → soup_with (kept_at result) more ≡ soup_in more }
        ensures next { result.joiner.next ≡ 1 }
    {
        Progress {
            joiner: Joiner::new(alloc),
            tail: Vec::new(alloc),
        }
    }

    /// The number of bytes that are kept of the logical line that has not ended.
    pub(crate) fn held(&self) -> usize
        ensures { result ≡ length self.now.joiner.joined.items + length self.now.tail.items }
    {
        self.joiner.joined.len() + self.tail.len()
    }

    /// Takes the next piece, or answers the first refusal of every text that begins so.
    pub(crate) fn take(&mut self, piece: &[u8]) -> Result<(), ObjFail>
        requires room { self.old.joiner.next + length piece.now < 2 ^ 32 - 1 }
        ensures took { OnOk result (TookPiece (kept_at self.old) (kept_at self.new) piece.now) }
        ensures refused { IfErr result (λ fail. fail ≢ ObjFail.Memory →
            RefusesPiece (kept_at self.old) piece.now fail) }
    {
        let mut at = 0;
        while let Some(end) = end_of_line(&piece[at..]) {
            self.end_line(&piece[at..at + end - 1])?;
            at += end;
        }
        self.keep(&piece[at..])
    }

    /// Takes the prefix of a piece up to a line feed, and the line feed.
    fn end_line(&mut self, prefix: &[u8]) -> Result<(), ObjFail>
        requires room { self.old.joiner.next < 2 ^ 32 - 1 }
        requires unended { list_any is_line_feed prefix.now ≡ false }
        ensures took { OnOk result
            (TookPiece (kept_at self.old) (kept_at self.new) (prefix.now ++ LINE_FEED ∷ [])) }
        ensures refused { IfErr result (λ fail. fail ≢ ObjFail.Memory →
            RefusesPiece (kept_at self.old) (prefix.now ++ LINE_FEED ∷ []) fail) }
    {
        if self.tail.is_empty() {
            return self.joiner.take(line_of(prefix));
        }
        self.keep(prefix)?;
        self.end_tail()
    }

    /// Takes a line feed.
    fn end_tail(&mut self) -> Result<(), ObjFail>
        requires room { self.old.joiner.next < 2 ^ 32 - 1 }
        ensures took { OnOk result (TookPiece (kept_at self.old) (kept_at self.new) (LINE_FEED ∷ [])) }
        ensures refused { IfErr result (λ fail. fail ≢ ObjFail.Memory →
            RefusesPiece (kept_at self.old) (LINE_FEED ∷ []) fail) }
    {
        let taken = self.joiner.take(line_of(&self.tail));
        self.tail.clear();
        taken
    }

    /// Keeps bytes of a line that does not end in them.
    fn keep(&mut self, bytes: &[u8]) -> Result<(), ObjFail>
        requires unended { list_any is_line_feed bytes.now ≡ false }
        ensures took { OnOk result (TookPiece (kept_at self.old) (kept_at self.new) bytes.now) }
        ensures still { OnOk result (self.new.joiner ≡ self.old.joiner) }
        ensures refused { IfErr result (λ fail. fail ≢ ObjFail.Memory →
            RefusesPiece (kept_at self.old) bytes.now fail) }
    {
        if bytes.len() > MAX_LINE + 1 - self.held() {
            return Err(too_long(self.joiner.number()));
        }
        append(&mut self.tail, bytes)
    }

    /// Drops what is kept of the line that has not ended.
    pub(crate) fn drop_line(&mut self)
        ensures joined { self.new.joiner.joined.items ≡ [] }
        ensures tail { self.new.tail.items ≡ [] }
    {
        let joiner = &mut self.joiner;
        joiner.joined.clear();
        self.tail.clear();
    }

    /// Takes the end of the text as that of its last line.
    fn end(&mut self) -> Result<(), ObjFail>
        requires room { self.old.joiner.next < 2 ^ 32 - 1 }
        ensures same { OnOk result
            (soup_with (kept_at self.old) [] ≡ soup_with_lines (kept_of self.new.joiner []) []) }
        ensures refused { IfErr result (λ fail. fail ≢ ObjFail.Memory → soup_with (kept_at self.old) [] ≡ Err fail) }
    {
        if self.tail.is_empty() {
            return Ok(());
        }
        let taken = self.joiner.take(line_of(&self.tail));
        self.tail.clear();
        taken
    }

    /// The soup of the text, or its first refusal.
    pub(crate) fn finish(self, alloc: Global) -> Result<Soup, ObjFail>
        requires room { self.joiner.next < 2 ^ 32 - 1 }
        ensures soup { IfOk result (λ soup. soup_with (kept_at self) [] ≡ Ok soup) }
        ensures few { IfOk result (λ soup. (length soup.pos ≤ MAX_V_LINES) × (length soup.faces ≤ MAX_F_LINES)) }
        ensures refused { IfErr result (λ fail. fail ≢ ObjFail.Memory → soup_with (kept_at self) [] ≡ Err fail) }
    {
        let mut progress = self;
        progress.end()?;
        progress.joiner.finish(alloc)
    }
}
