//! The keys of the edges that may be doubled, with the layout that is numbered.

ghost use Rattle.std.specs.Prelude.{IfOk};
ghost use Rattle.qm_stitch.specs.Lengthened.{gluing_in, lengths_by};
ghost use Rattle.qm_stitch.specs.Tight.{AreRimKeys};

use crate::numbered::Numbered;
use crate::repeat::sort;
use crate::rim::rim_keys;
use std::alloc::{AllocError, Global};

/// A layout that is numbered, and the keys of its edges that may be doubled, in order.
#[derive(Clone, Copy)]
pub struct Keyed<'a> {
    pub(crate) numbered: Numbered<'a>,
    pub(crate) keys: &'a [u64],
    ghost rim: { AreRimKeys (gluing_in numbered) (lengths_by numbered) keys.now },
}

/// The keys of the edges that may be doubled, in order. n log n in the edges that have an end on a side of a patch.
pub(crate) fn keys_of(alloc: Global, numbered: &Numbered) -> Result<Vec<u64>, AllocError>
    ensures { IfOk result (λ keys. AreRimKeys (gluing_in numbered.now) (lengths_by numbered.now) keys.items) }
{
    let mut keys = rim_keys(alloc, numbered)?;
    sort(&mut keys);
    Ok(keys)
}
