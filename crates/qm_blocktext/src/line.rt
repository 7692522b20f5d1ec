//! Lines with words and numbers.

ghost use Rattle.std.specs.Prelude.{◌≡◌, ◌≤◌, ◌+◌, ◌++◌, ◌∷◌, [], OnOk, OnErr};
ghost use Rattle.arrayvec.specs.ArrayString.{array_string_len};
ghost use Rattle.def_blocks.specs.BlockTexts.{block_line, blocks_head, link_line, side_text, span_text};
ghost use Rattle.def_cuttext.specs.GridsText.{arc_link_line, grids_head, head_lines};
ghost use Rattle.def_io.specs.declared.TheConstants.{LINE_FEED};

use def_blocks::{Link, SideName};
use def_cuttext::Chosen;
use def_output::Stopped;
use qm_fit::{keep_word, patches_word};
use qm_output::Output;
use qm_print::{Line, line_of, numbered_line, push_numbered};

/// Puts a line.
pub(crate) fn put_line<T: Output>(out: &mut T, line: &Line) -> Result<(), Stopped>
    ensures whole { OnOk result (T.takes out.old out.new line.now.bytes) }
    ensures part { OnErr result (T.stops out.old out.new line.now.bytes) }
{
    out.put(line.as_str().as_bytes())
}

/// The first two lines: how many parts each old edge has, and how many blocks there are.
pub(crate) fn head_of(chosen: Option<Chosen>, by: u32, blocks: u64) -> Line
    ensures { result.bytes ≡ head_lines chosen by blocks }
{
    match chosen {
        None => blocks_head_of(by, blocks),
        Some(chosen) => grids_head_of(&chosen, by, blocks),
    }
}

/// The first two lines of blocks.
fn blocks_head_of(by: u32, blocks: u64) -> Line
    ensures { result.bytes ≡ blocks_head by blocks }
{
    let mut line = numbered_line("quadq blocks 1 by ", u64::from(by), "\nblocks ");
    push_numbered(&mut line, blocks, "\n");
    line
}

/// The line of a block: its number, how wide it is, and how high.
pub(crate) fn size_of(number: u64, wide: u32, high: u32) -> Line
    ensures { result.bytes ≡ block_line number wide high }
{
    let mut line = numbered_line("block ", number, " ");
    push_numbered(&mut line, u64::from(wide), " ");
    push_numbered(&mut line, u64::from(high), "\n");
    line
}

/// The first two lines of the grids of a chosen cut.
fn grids_head_of(chosen: &Chosen, by: u32, blocks: u64) -> Line
    ensures { result.bytes ≡ grids_head chosen.now.keep chosen.now.patches by blocks }
{
    let mut line = line_of("quadq grids 1 keep ");
    line.push_str(keep_word(chosen.keep));
    line.push_str(" patches ");
    line.push_str(patches_word(chosen.patches));
    line.push_str(" by ");
    push_numbered(&mut line, u64::from(by), "\nblocks ");
    push_numbered(&mut line, blocks, "\n");
    line
}

/// The line of a link. Blocks count from 1.
pub(crate) fn link_of(link: &Link) -> Line
    ensures { result.bytes ≡ link_line link.now }
{
    let mut line = ends_of(link);
    line.push_str("\n");
    line
}

/// The line of a link, with the number of its arc, which counts from 1.
pub(crate) fn arc_link_of(link: &Link, arc: u32) -> Line
    ensures { result.bytes ≡ arc_link_line link.now arc }
{
    let mut line = ends_of(link);
    line.push_str(" ");
    push_numbered(&mut line, u64::from(arc) + 1, "\n");
    line
}

/// The line of a link without its line feed.
fn ends_of(link: &Link) -> Line
    ensures text { result.bytes ++ LINE_FEED ∷ [] ≡ link_line link.now }
    ensures short { array_string_len result ≤ 250 }
{
    match link.other {
        None => {
            let mut line = line_of("wall ");
            push_span(&mut line, link);
            line
        }
        Some((block, side, from)) => {
            let mut line = line_of("link ");
            push_span(&mut line, link);
            line.push_str(" ");
            push_numbered(&mut line, u64::from(block) + 1, " ");
            push_side(&mut line, side);
            line.push_str(" ");
            push_numbered(&mut line, from, "");
            line
        }
    }
}

/// Puts the side of a link, its first point there and how many edges it has at the end of a line.
fn push_span(line: &mut Line, link: &Link)
    requires { array_string_len line.old ≤ 100 }
    ensures text { line.new.bytes ≡ line.old.bytes ++ span_text link.now }
    ensures short { array_string_len line.new ≤ array_string_len line.old + 50 }
{
    push_side(line, link.side);
    line.push_str(" ");
    push_numbered(line, link.from, " ");
    push_numbered(line, link.len, "");
}

/// Puts the word of a side at the end of a line.
fn push_side(line: &mut Line, side: SideName)
    requires { array_string_len line.old ≤ 300 }
    ensures text { line.new.bytes ≡ line.old.bytes ++ side_text side }
    ensures short { array_string_len line.new ≤ array_string_len line.old + 5 }
{
    match side {
        SideName::South => line.push_str("south"),
        SideName::East => line.push_str("east"),
        SideName::North => line.push_str("north"),
        SideName::West => line.push_str("west"),
    }
}
