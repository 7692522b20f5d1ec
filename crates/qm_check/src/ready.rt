//! What a text is judged by: the layout of the old mesh, and the network and the frame of the task that is asked for.

ghost use Rattle.std.specs.Prelude.{◌≡◌, ◌∷◌, ◌++◌, [], IfOk};
ghost use Rattle.def_io.specs.declared.TheConstants.{LINE_FEED};

use def_certtext::Terms;
use def_flow::Net;
use def_io::LINE_FEED;
use def_remesh::DartShares;
use qm_stages::CutMesh;
use std::alloc::{AllocError, Global};

/// What lengths are found by, the head line of their text, with its end, the marked edges whose lines stand in it, and
/// the shares by which new points are spaced, if they are.
#[derive(Drop)]
pub(crate) struct Frame {
    pub(crate) terms: Terms,
    pub(crate) head: Vec<u8>,
    pub(crate) marks: Option<Vec<bool>>,
    pub(crate) shares: Option<DartShares>,
}

/// What a text is judged by.
#[derive(Drop)]
pub(crate) struct Ready {
    pub(crate) cut: CutMesh,
    pub(crate) frame: Frame,
    pub(crate) net: Net,
}

/// A line with its end.
pub(crate) fn ended(alloc: Global, line: &[u8]) -> Result<Vec<u8>, AllocError>
    ensures { IfOk result (λ text. text.items ≡ line.now ++ LINE_FEED ∷ []) }
{
    let mut text = Vec::new(alloc);
    text.extend_from_slice(line)?;
    text.push(LINE_FEED)?;
    Ok(text)
}
