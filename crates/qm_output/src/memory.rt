//! A text in memory.

use crate::output::Output;
use def_output::Stopped;
use std::alloc::Global;
use std::marker::Model;

/// A text in memory, which grows as it is put. It stops where memory is wanting. Contracts see its bytes.
#[derive(Debug, Drop)]
pub struct MemText {
    bytes: Vec<u8>,
}

impl Model for MemText {
    ghost use Rattle.std.specs.Prelude.{ℕ, List};

    ghost Value = { List ℕ };

    ghost view = { λ t. t.bytes.items };

    ghost invariant = { λ t. Unit {0} };
}

impl MemText {
    ghost use Rattle.std.specs.Prelude.{◌≡◌, []};

    /// The empty text. It takes no memory.
    pub fn new(alloc: Global) -> MemText
        ensures { result ≡ [] }
    {
        MemText {
            bytes: Vec::new(alloc),
        }
    }

    /// The bytes of the text.
    pub fn into_bytes(self) -> Vec<u8>
        ensures { result.items ≡ self }
    {
        self.bytes
    }
}

impl Output for MemText {
    ghost use Rattle.std.specs.Prelude.{◌≡◌, ◌++◌, ⊤};
    ghost use Rattle.qm_output.specs.Laws.{grown_more, grown_nothing};

    ghost takes = { λ s t text. t ≡ s ++ text };

    ghost stops = { λ _ _ _. ⊤ };

    fn put(&mut self, piece: &[u8]) -> Result<(), Stopped> {
        self.bytes.extend_from_slice(piece).map_err(|_| Stopped)
    }

    ghost takes_nothing = { grown_nothing };

    ghost takes_more = { grown_more };

    ghost stops_later = { λ _ _ _ _ _ _ _. tt };

    ghost stops_before = { λ _ _ _ _ _. tt };
}
