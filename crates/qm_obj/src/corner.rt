//! Indices, and the corners of faces.

ghost use Rattle.std.specs.Prelude.{◌≡◌, ◌≤◌, ◌<◌, ◌+◌, ◌^◌, ◌-◌, ◌==◌, ◌&&◌, ◌||◌, nat_le, nat_lt, min, Some, None};
ghost use Rattle.std.specs.Prelude.{if◌then◌else◌, length};
ghost use Rattle.std.specs.List.{list_all};
ghost use Rattle.def_text.specs.Corner.{index_of, is_corner_word, is_optional};
ghost use Rattle.def_text.specs.Digits.{is_signed};
ghost use Rattle.qm_obj.specs.Indices.{clamped, corner_of, named, parts_behind};

use def_text::{Index, SLASH};
use qm_scan::{behind_first, find_byte, is_negative, is_number, read_number, unsigned};

/// What a word says as an index, where `all` counts the `v` lines and `before` those before its line.
#[tactic(auto, using(crate::proofs::CornerLemmas::index_named))]
pub fn read_index(word: &[u8], all: u32, before: u32) -> Index
    requires { before ≤ all }
    ensures { result ≡ index_of all before word.now }
{
    match resolve(word, before) {
        None => Index::Malformed,
        Some(k) => named_line(k, all),
    }
}

fn named_line(k: u64, all: u32) -> Index
    ensures { result ≡ (if (k == 0) || nat_lt all k then Index.Out else Index.Vertex k) }
{
    if k == 0 || k > u64::from(all) {
        Index::Out
    } else {
        Index::Vertex { k: k as u32 }
    }
}

/// The `v` line that a corner names after `before` others, from 1: 0 where it names none that can come, and
/// `u32::MAX` where its number is greater.
#[tactic(auto, using(crate::proofs::CornerLemmas::plain_corner))]
pub(crate) fn read_corner(word: &[u8], before: u32) -> Option<u32>
    ensures { result ≡ (if is_corner_word word.now then Some (corner_of before word.now) else None) }
{
    match read_number(word) {
        Some(k) => Some(clamp(k)),
        None => read_indices(word, before),
    }
}

fn clamp(k: u64) -> u32
    ensures { result ≡ clamped k }
{
    k.min(u64::from(u32::MAX)) as u32
}

#[tactic(auto, using(crate::proofs::CornerLemmas::corner_parts))]
fn read_indices(word: &[u8], before: u32) -> Option<u32>
    ensures { result ≡ (if is_corner_word word.now then Some (corner_of before word.now) else None) }
{
    let (first, tail) = word.split_at(find_byte(word, SLASH));
    if !is_tail(tail) {
        return None;
    }
    match resolve(first, before) {
        Some(k) => Some(clamp(k)),
        None => None,
    }
}

/// The number of the `v` line that an index names, or 0 where it is out, clamped at `u64::MAX`.
#[tactic(auto, using(crate::proofs::CornerLemmas::named_count))]
fn resolve(word: &[u8], before: u32) -> Option<u64>
    ensures { result ≡ (if is_signed word.now then Some (named before word.now) else None) }
{
    match read_number(unsigned(word)) {
        Some(k) => Some(count_from(is_negative(word), k, before)),
        None => None,
    }
}

fn count_from(negative: bool, k: u64, before: u32) -> u64
    ensures { result
        ≡ (if (k == 0) || (negative && nat_lt before k) then 0 else (if negative then before + 1 - k else k)) }
{
    let before = u64::from(before);
    if k == 0 || (negative && k > before) {
        0
    } else if negative {
        before + 1 - k
    } else {
        k
    }
}

/// Whether nothing stands behind the first index of a corner, or one or two slashes with optional indices.
#[tactic(auto, using(crate::proofs::CornerLemmas::two_parts))]
fn is_tail(tail: &[u8]) -> bool
    ensures { result ≡ (nat_le (length (parts_behind tail.now)) 2 && list_all is_optional (parts_behind tail.now)) }
{
    let rest = behind_first(tail);
    let (second, last) = rest.split_at(find_byte(rest, SLASH));
    is_absent_or_index(second) && is_last(last)
}

#[tactic(auto, using(crate::proofs::CornerLemmas::last_part))]
fn is_last(tail: &[u8]) -> bool
    ensures { result ≡ (nat_le (length (parts_behind tail.now)) 1 && list_all is_optional (parts_behind tail.now)) }
{
    is_absent_or_index(behind_first(tail))
}

fn is_absent_or_index(word: &[u8]) -> bool
    ensures { result ≡ is_optional word.now }
{
    match word {
        [] => true,
        _ => is_number(unsigned(word)),
    }
}
