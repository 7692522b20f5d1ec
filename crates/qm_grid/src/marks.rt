//! Tables over the faces, written for the cells of a grid.

ghost use Rattle.std.specs.Prelude.{◌≡◌, ◌<◌, ◌/◌, ◌||◌, ℕ, false, if◌then◌else◌, length, slice_index, slice_index_or};
ghost use Rattle.qm_grid.specs.Heads.{lies_in};

/// Writes `head` for the face of each cell.
pub(crate) fn set_heads(cells: &[u32], head: u32, heads: &mut [u32])
    requires { (k : ℕ) → k < length cells.now → slice_index cells.now k / 4 < length heads.old }
    ensures { (f : ℕ) → f < length heads.old
        → slice_index heads.new f ≡ (if lies_in cells.now f then head else slice_index heads.old f) }
{
    for c in cells {
        heads[(*c / 4) as usize] = head;
    }
}

/// Marks the face of each cell.
pub(crate) fn mark(cells: &[u32], seen: &mut [bool])
    requires { (k : ℕ) → k < length cells.now → slice_index cells.now k / 4 < length seen.old }
    ensures { (f : ℕ) → f < length seen.old
        → slice_index_or seen.new f false ≡ (slice_index_or seen.old f false || lies_in cells.now f) }
{
    for c in cells {
        seen[(*c / 4) as usize] = true;
    }
}
