//! The text of blocks.

ghost use Rattle.std.specs.Prelude.{◌≡◌, ◌<◌, length, map, IfOk, OnOk, OnErr};
ghost use Rattle.def_cuttext.specs.GridsText.{chosen_text};
ghost use Rattle.def_remesh.specs.NewPoints.{lengths_in};
ghost use Rattle.qm_blocktext.specs.Gridded.{lines_at, lines_in, size_in};

use crate::blocks::Blocks;
use crate::line::{head_of, put_line, size_of};
use crate::links::put_links;
use crate::points::put_points;
use def_output::Stopped;
use qm_output::{MemText, Output};
use std::alloc::{AllocError, Global};

/// The text of blocks as a whole.
pub fn block_text(alloc: Global, blocks: &Blocks) -> Result<Vec<u8>, AllocError>
    ensures { IfOk result (λ text. text.items ≡ chosen_text blocks.now.chosen blocks.now.by
        blocks.now.points.soup blocks.now.points.layout (lengths_in blocks.now.points.lengths)
        (map (λ block. block.items) blocks.now.links.items)) }
{
    let mut text = MemText::new(alloc);
    match put_blocks(&mut text, blocks) {
        Ok(()) => Ok(text.into_bytes()),
        Err(_) => Err(AllocError),
    }
}

/// Puts the text of blocks: two head lines, and for each block a line with its size, one for each point and one for
/// each link. Linear in the points but for those on sides, which are logarithmic in the arcs; without memory.
pub fn put_blocks<T: Output>(out: &mut T, blocks: &Blocks) -> Result<(), Stopped>
    ensures whole { OnOk result (T.takes out.old out.new
        (chosen_text blocks.now.chosen blocks.now.by blocks.now.points.soup blocks.now.points.layout
        (lengths_in blocks.now.points.lengths) (map (λ block. block.items) blocks.now.links.items))) }
    ensures part { OnErr result (T.stops out.old out.new
        (chosen_text blocks.now.chosen blocks.now.by blocks.now.points.soup blocks.now.points.layout
        (lengths_in blocks.now.points.lengths) (map (λ block. block.items) blocks.now.links.items))) }
{
    put_line(
        out,
        &head_of(blocks.chosen, blocks.by, blocks.links.len() as u64),
    )?;
    put_each(out, blocks)
}

/// Puts the lines of each block.
fn put_each<T: Output>(out: &mut T, blocks: &Blocks) -> Result<(), Stopped>
    ensures whole { OnOk result (T.takes out.old out.new (lines_in blocks.now)) }
    ensures part { OnErr result (T.stops out.old out.new (lines_in blocks.now)) }
{
    for block in 0..blocks.links.len() {
        put_block(out, blocks, block)?;
    }
    Ok(())
}

/// Puts the lines of a block: its size, its points and its links.
fn put_block<T: Output>(out: &mut T, blocks: &Blocks, block: usize) -> Result<(), Stopped>
    requires { block < length blocks.now.links.items }
    ensures whole { OnOk result (T.takes out.old out.new (lines_at blocks.now block)) }
    ensures part { OnErr result (T.stops out.old out.new (lines_at blocks.now block)) }
{
    put_size(out, blocks, block)?;
    put_points(out, &blocks.points, block)?;
    let links = blocks.links.as_slice();
    let layout = blocks.points.cut().layout();
    put_links(out, blocks.chosen, &links[block], &layout.sides[block])
}

/// Puts the line of a block with its number, which counts from 1, and its size.
fn put_size<T: Output>(out: &mut T, blocks: &Blocks, block: usize) -> Result<(), Stopped>
    requires { block < length blocks.now.links.items }
    ensures whole { OnOk result (T.takes out.old out.new (size_in blocks.now.points block)) }
    ensures part { OnErr result (T.stops out.old out.new (size_in blocks.now.points block)) }
{
    let rim = blocks.points.rim(block);
    put_line(out, &size_of(block as u64 + 1, rim.wide, rim.high))
}
