//! Lengths of arcs, of which some are marked.

ghost use Rattle.std.specs.Prelude.{◌≡◌, length};

/// The lengths of arcs, and whether each arc is tight.
#[derive(Clone, Copy)]
pub(crate) struct Marked<'a> {
    pub lengths: &'a [u64],
    pub tight: &'a [bool],
    ghost each: { length tight.now ≡ length lengths.now },
}
