//! The words of a command line, one a line of a text.

ghost use Rattle.std.specs.Prelude.{◌≡◌, Some, map, IfOk};
ghost use Rattle.def_io.specs.Lines.{lines_of};

use qm_io::{CommandLine, Memory, cut_line};
use std::alloc::Global;
use std::env::FillError;

/// The lines of a text, each of which is a word.
#[derive(Drop)]
pub(crate) struct WordLines<'a> {
    lines: Vec<&'a [u8]>,
}

impl<'a> WordLines<'a> {
    /// Linear in the text.
    pub(crate) fn of(alloc: Global, text: &'a [u8]) -> Result<Self, Memory>
        ensures { IfOk result (λ words. map (λ line. line.now) words.lines.items ≡ lines_of text.now) }
    {
        let mut lines = Vec::new(alloc);
        let mut rest = text;
        while let Some((line, behind)) = cut_line(rest) {
            lines.push(line)?;
            rest = behind;
        }
        Ok(WordLines { lines })
    }
}

impl<'a> CommandLine for WordLines<'a> {
    ghost given = { λ s. Some (map (λ line. line.now) s.lines.items) };

    fn word(&self, i: usize, buf: &mut [u8]) -> Result<usize, FillError> {
        let Some(line) = self.lines.get(i) else {
            return Err(FillError::NotPresent);
        };
        if line.len() > buf.len() {
            return Err(FillError::TooLong);
        }
        buf[..line.len()].copy_from_slice(line);
        Ok(line.len())
    }
}
