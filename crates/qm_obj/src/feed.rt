//! A text that is read in pieces.

ghost use Rattle.std.specs.Prelude.{◌≢◌, OnOk};

use crate::Memory;
use crate::progress::Progress;
use def_text::{MAX_BYTES, MAX_F_LINES, MAX_LINE, MAX_V_LINES, ObjFail, Soup};
use std::alloc::{AllocError, Global};
use std::marker::Model;

/// The soup of a text that comes in pieces, cut anywhere. Of the line that has not ended it keeps as many bytes as a
/// line may have, with one for a carriage return; a longer one is refused.
#[derive(Drop)]
pub struct ObjFeed {
    progress: Progress,
    refused: Option<ObjFail>,
}

impl Model for ObjFeed {
    ghost use Rattle.def_feed.specs.Feed.{Fed};
    ghost use Rattle.qm_obj.specs.Feeding.{IsFeed};
    ghost use Rattle.qm_obj.specs.Views.{kept_at};

    ghost Value = { Fed };

    ghost view = { λ f. record {
      kept = record {
        positions = f.progress.joiner.reader.positions.items;
        faces = f.progress.joiner.reader.faces.items;
        lines = f.progress.joiner.reader.lines.items;
        next = f.progress.joiner.next;
        begun = f.progress.joiner.begun;
        joined = f.progress.joiner.joined.items;
        tail = f.progress.tail.items;
      };
      refused = f.refused;
    } };

    ghost invariant = { λ f. IsFeed (record { kept = kept_at f.progress; refused = f.refused }) };
}

impl ObjFeed {
    ghost use Rattle.std.specs.Prelude.{◌≡◌, ◌≢◌, ◌≤◌, ◌+◌, ◌++◌, [], length, Ok, Err, IfOk, OnOk, IfErr};
    ghost use Rattle.def_io.specs.Bytes.{Bytes};
    ghost use Rattle.def_feed.specs.Feed.{StandsFor};
    ghost use Rattle.def_text.specs.Text.{soup_in};

    /// A feed that stands for the empty text. It takes no memory.
    pub fn new(alloc: Global) -> ObjFeed
        ensures { StandsFor result [] }
    {
        ObjFeed {
            progress: Progress::new(alloc),
            refused: None,
        }
    }

    /// Takes the next piece of the text. After want of memory the feed is only to be dropped. Linear in the piece.
    pub fn feed(&mut self, piece: &[u8]) -> Result<(), Memory>
        requires { (text : Bytes) × StandsFor self.old text × (length text + length piece.now ≤ MAX_BYTES) }
        ensures { OnOk result ((text : Bytes) → StandsFor self.old text → StandsFor self.new (text ++ piece.now)) }
    {
        if self.refused.is_some() {
            return Ok(());
        }
        match self.progress.take(piece) {
            Ok(()) => Ok(()),
            Err(fail) => {
                self.progress.drop_line();
                self.refused = Some(fail);
                only_memory(fail)
            }
        }
    }

    /// The number of bytes that are kept of the line that has not ended.
    pub fn held(&self) -> u32
        ensures kept { result ≡ length self.now.kept.joined + length self.now.kept.tail }
        ensures few { result ≤ MAX_LINE + 1 }
    {
        self.progress.held() as u32
    }

    /// The soup of the text, or its first refusal.
    pub fn finish(self) -> Result<Soup, ObjFail>
        ensures soup { IfOk result (λ soup. (text : Bytes) → StandsFor self text → soup_in text ≡ Ok soup) }
        ensures few { IfOk result (λ soup. (length soup.pos ≤ MAX_V_LINES) × (length soup.faces ≤ MAX_F_LINES)) }
        ensures refused { IfErr result (λ fail. fail ≢ ObjFail.Memory →
            (text : Bytes) → StandsFor self text → soup_in text ≡ Err fail) }
    {
        let ObjFeed { progress, refused } = self;
        if let Some(fail) = refused {
            return Err(fail);
        }
        let alloc = *progress.tail.allocator();
        progress.finish(alloc)
    }
}

/// Want of memory is handed on, and no other refusal.
fn only_memory(fail: ObjFail) -> Result<(), Memory>
    ensures { OnOk result (fail ≢ ObjFail.Memory) }
{
    match fail {
        ObjFail::Memory => Err(AllocError),
        _ => Ok(()),
    }
}
