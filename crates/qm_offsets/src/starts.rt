//! Where runs of given sizes begin.

ghost use Rattle.std.specs.Prelude.{◌≡◌, ◌<◌, ◌+◌, ◌-◌, ◌^◌, ℕ, length, slice_index, IfOk, OnOk};
ghost use Rattle.def_remesh.specs.Numberings.{AreRunStarts};

use def_remesh::RunStarts;
use std::alloc::{AllocError, Global};

/// The starts of no runs yet, with room for so many.
pub fn no_starts(alloc: Global, runs: usize) -> Result<RunStarts, AllocError>
    requires { runs < 2 ^ 62 }
    ensures { IfOk result (λ starts. (sizes : ℕ → ℕ) → AreRunStarts sizes 0 starts.begin.items) }
{
    let mut begin = Vec::with_capacity(alloc, runs + 1)?;
    begin.push(0)?;
    Ok(RunStarts { begin })
}

/// Puts another run of this size behind the last one.
pub fn push_start(starts: &mut RunStarts, size: u32) -> Result<(), AllocError>
    requires some { 0 < length starts.old.begin.items }
    requires small { slice_index starts.old.begin.items (length starts.old.begin.items - 1) + size < 2 ^ 32 }
    ensures { OnOk result ((sizes : ℕ → ℕ) (runs : ℕ) → AreRunStarts sizes runs starts.old.begin.items
        → sizes runs ≡ size → AreRunStarts sizes (runs + 1) starts.new.begin.items) }
{
    let end = starts.begin[starts.begin.len() - 1];
    starts.begin.push(end + size)?;
    Ok(())
}
