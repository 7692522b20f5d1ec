//! The head lines of commands that remesh over another cut than `remesh` does.

ghost use Rattle.std.specs.Prelude.{◌≡◌, ◌++◌, ◌∷◌, [], IfOk};
ghost use Rattle.def_io.specs.declared.TheConstants.{LINE_FEED};
ghost use Rattle.def_run.specs.Heads.{named_head};

use def_flow::Settings;
use qm_certtext::head_text;
use qm_io::Memory;
use std::alloc::Global;

/// The head line of the command of this name, and its line feed: that of `remesh` with its name exchanged.
pub(crate) fn named_head(alloc: Global, name: &[u8], settings: &Settings) -> Result<Vec<u8>, Memory>
    ensures { IfOk result (λ text. text.items ≡ named_head name.now settings.now ++ LINE_FEED ∷ []) }
{
    let head = head_text(alloc, settings, false)?;
    let mut text = Vec::new(alloc);
    text.extend_from_slice(b"#quadq 1 ")?;
    text.extend_from_slice(name)?;
    text.extend_from_slice(&head[b"#quadq 1 remesh".len()..])?;
    Ok(text)
}
