//! Tables of lengths.

ghost use Rattle.std.specs.Prelude.{◌≡◌, ◌<◌, ◌-◌, ◌^◌, ℕ, length, slice_index, IfOk};
ghost use Rattle.def_math.specs.Counts.{count_below};
ghost use Rattle.def_remesh.specs.NewPoints.{lengths_in};
ghost use Rattle.def_remesh.specs.Numberings.{AreRunStarts};

use crate::starts::{no_starts, push_start};
use def_remesh::RunStarts;
use std::alloc::{AllocError, Global};

/// The same lengths, in half the room.
pub fn short_lengths(alloc: Global, lengths: &[u64]) -> Result<Vec<u32>, AllocError>
    requires { (arc : ℕ) → arc < length lengths.now → slice_index lengths.now arc < 2 ^ 32 }
    ensures { IfOk result (λ short. short.items ≡ lengths.now) }
{
    let mut short = Vec::with_capacity(alloc, lengths.len())?;
    for length in lengths {
        short.push(*length as u32)?;
    }
    Ok(short)
}

/// Where the inner points of arcs of these lengths begin.
pub fn inner_points(alloc: Global, lengths: &[u32]) -> Result<RunStarts, AllocError>
    requires some { (arc : ℕ) → arc < length lengths.now → 0 < slice_index lengths.now arc }
    requires small { count_below (λ arc. lengths_in lengths.now arc - 1) (length lengths.now) < 2 ^ 32 }
    ensures { IfOk result (λ starts.
        AreRunStarts (λ arc. lengths_in lengths.now arc - 1) (length lengths.now) starts.begin.items) }
{
    let mut starts = no_starts(alloc, lengths.len())?;
    for length in lengths {
        push_start(&mut starts, *length - 1)?;
    }
    Ok(starts)
}
