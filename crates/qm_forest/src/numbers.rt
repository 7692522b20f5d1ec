//! Reads of the tables, and sums of what is kept with what the shifts of this search changed.

ghost use Rattle.std.specs.Prelude.{◌≡◌, ◌+ℤ◌, ◌^◌, ◌<◌, ◌≤◌, pos, slice_index, slice_index_or, unsigned_abs};
ghost use Rattle.def_forest.specs.Steps.{weight_change};
ghost use Rattle.def_forest.specs.Tables.{weight_at, label_at, out_of};

use def_forest::Label;

/// The entry of a table at a place, or what stands for those past its end.
pub(crate) fn read<T: Copy>(table: &[T], place: u32, past: T) -> T
    ensures { result ≡ slice_index_or table.now place past }
{
    match table.get(place as usize) {
        Some(entry) => *entry,
        None => past,
    }
}

/// What a shift by `delta` changes at a label.
pub(crate) fn shift_at(label: Label, delta: i128) -> i128
    requires { unsigned_abs delta ≤ 2 ^ 100 }
    ensures value { result ≡ weight_change label delta }
    ensures small { unsigned_abs result ≤ 2 ^ 100 }
{
    match label {
        Label::Outer => delta,
        Label::Inner => 0 - delta,
        Label::Outside => 0,
    }
}

/// The label of a blossom.
pub(crate) fn label_of(label: &[Label], b: u32) -> Label
    ensures { result ≡ label_at label.now b }
{
    read(label, b, Label::Outside)
}

/// The weight of a blossom.
pub(crate) fn weight_from(base: &[i128], label: &[Label], delta: i128, b: u32) -> i128
    requires delta { unsigned_abs delta ≤ 2 ^ 100 }
    requires small { unsigned_abs (weight_at base.now label.now delta b) ≤ 2 ^ 62 }
    ensures { result ≡ weight_at base.now label.now delta b }
{
    read(base, b, 0) + shift_at(label_of(label, b), delta)
}

/// What a handle adds to the potentials of its vertices, the label of their outermost blossom given.
pub(crate) fn added_at(off: &[i128], handle: u32, label: Label, delta: i128) -> i128
    requires delta { unsigned_abs delta ≤ 2 ^ 100 }
    requires small { unsigned_abs (slice_index_or off.now handle (pos 0) +ℤ weight_change label delta) ≤ 2 ^ 100 }
    ensures { result ≡ slice_index_or off.now handle (pos 0) +ℤ weight_change label delta }
{
    read(off, handle, 0) + shift_at(label, delta)
}

/// The sum of what stands at a vertex and what its handle adds.
pub(crate) fn sum_at(q: &[i128], v: u32, more: i128) -> i128
    requires { unsigned_abs (slice_index_or q.now v (pos 0) +ℤ more) ≤ 2 ^ 100 }
    ensures { result ≡ slice_index_or q.now v (pos 0) +ℤ more }
{
    read(q, v, 0) + more
}

/// The blossom of a vertex.
pub(crate) fn top_of(hand: &[u32], top: &[u32], v: u32) -> u32
    ensures { result ≡ out_of hand.now top.now v }
{
    read(top, hand_of(hand, v), 0)
}

/// The handle of a vertex.
pub(crate) fn hand_of(hand: &[u32], v: u32) -> u32
    ensures { result ≡ slice_index hand.now v }
{
    read(hand, v, 0)
}
