//! The two parts of a text, the head line between them, and what stands behind it.

ghost use Rattle.std.specs.Prelude.{◌≡◌, ◌≤◌, ◌+◌, drop, length, take};
ghost use Rattle.def_io.specs.Lines.{lines_of, tail_of};
ghost use Rattle.def_run.specs.Check.{head_of};
ghost use Rattle.def_run.specs.MarkLines.{front_of};
ghost use Rattle.def_text.specs.declared.limits.TheConstants.{MAX_BYTES};
ghost use Rattle.qm_check.specs.Ready.{CutsAt};

use qm_certtext::HeadAt;
use qm_io::cut_line;

/// A text of no more bytes than may be read.
#[derive(Clone, Copy)]
pub(crate) struct SmallText<'a> {
    pub(crate) bytes: &'a [u8],
    pub(crate) ghost few: { length bytes.now ≤ MAX_BYTES },
}

/// Such a text, and the head line that divides it into an old text and one that is written for it.
#[derive(Clone, Copy)]
pub(crate) struct Divided<'a> {
    pub(crate) bytes: &'a [u8],
    pub(crate) head: HeadAt,
    pub(crate) ghost few: { length bytes.now ≤ MAX_BYTES },
    pub(crate) ghost cuts: { CutsAt bytes.now head },
}

impl Divided<'_> {
    /// The old text, in front of the head line.
    pub(crate) fn old_text(&self) -> SmallText<'_>
        ensures front { result.bytes.now ≡ front_of self.now.head.line self.now.bytes.now }
        ensures lines { lines_of result.bytes.now ≡ take self.now.head.line (lines_of self.now.bytes.now) }
    {
        let (old, _) = self.bytes.split_at(self.head.at as usize);
        SmallText { bytes: old }
    }

    /// The text that is written for it, from the head line on.
    pub(crate) fn written_text(&self) -> SmallText<'_>
        ensures { result.bytes.now ≡ tail_of self.now.head.line self.now.bytes.now }
    {
        let (_, written) = self.bytes.split_at(self.head.at as usize);
        SmallText { bytes: written }
    }

    /// The head line.
    #[tactic(auto, using(qm_io::proofs::Cuts::cut_is))]
    pub(crate) fn head_line(&self) -> &[u8]
        ensures { result.now ≡ head_of self.now.bytes.now self.now.head.line }
    {
        let written = self.written_text();
        match cut_line(written.bytes) {
            Some((line, _)) => line,
            None => written.bytes,
        }
    }

    /// What stands behind the head line.
    #[tactic(auto, using(remesh_laws::proofs::Tails::tail_behind))]
    pub(crate) fn text_behind(&self) -> &[u8]
        ensures { lines_of result.now ≡ drop (self.now.head.line + 1) (lines_of self.now.bytes.now) }
    {
        let written = self.written_text();
        match cut_line(written.bytes) {
            Some((_, behind)) => behind,
            None => b"",
        }
    }
}
