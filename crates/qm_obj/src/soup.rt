//! The soup of a source.

ghost use Rattle.std.specs.Prelude.{◌≡◌, ◌≤◌, ◌<◌, ◌+◌, [], length, IfOk, OnOk, IfErr, IsErrOf};
ghost use Rattle.def_feed.specs.Feed.{StandsFor};
ghost use Rattle.def_io.specs.Bytes.{Bytes};
ghost use Rattle.def_io.specs.Faults.{Rose};
ghost use Rattle.def_io.specs.Moves.{change, GaveMore, IsEmptied};
ghost use Rattle.def_text.specs.Input.{IsSoupFail, ReadSoup};
ghost use Rattle.qm_obj.specs.Feeding.{FedPiece, FedWhole};

use crate::Memory;
use crate::feed::ObjFeed;
use def_io::ReadFail;
use def_text::{MAX_BYTES, MAX_F_LINES, MAX_V_LINES, Soup, SoupFail};
use qm_io::{Source, read_buffer};
use std::alloc::Global;

/// Reads a source to its end, at most `limit` bytes, and answers the soup of its text. Linear. The text is read as it
/// comes, and no more of it is kept than a line.
pub fn read_soup<S: Source>(alloc: Global, src: &mut S, limit: u32) -> Result<Soup, SoupFail>
    requires { limit ≤ MAX_BYTES }
    ensures soup { IfOk result (ReadSoup limit (S.state src.old).told (S.state src.new).told) }
    ensures few { IfOk result (λ soup. (length soup.pos ≤ MAX_V_LINES) × (length soup.faces ≤ MAX_F_LINES)) }
    ensures calm { OnOk result ((S.state src.new).faults ≡ (S.state src.old).faults) }
    ensures later { (S.state src.old).faults ≤ (S.state src.new).faults }
    ensures fails { IfErr result (IsSoupFail limit
        (change (S.state src.old) (S.state src.new))) }
{
    let feed = feed_of(alloc, src, limit)?;
    Ok(feed.finish()?)
}

/// A feed of all bytes of the source.
fn feed_of<S: Source>(alloc: Global, src: &mut S, limit: u32) -> Result<ObjFeed, ReadFail>
    requires { limit ≤ MAX_BYTES }
    ensures whole { IfOk result (FedWhole limit (S.state src.old).told (S.state src.new).told) }
    ensures calm { OnOk result ((S.state src.new).faults ≡ (S.state src.old).faults) }
    ensures later { (S.state src.old).faults ≤ (S.state src.new).faults }
    ensures fault { IsErrOf result ReadFail.Fault → Rose (S.state src.old).faults (S.state src.new).faults }
    ensures too_long { IsErrOf result ReadFail.TooLong →
        GaveMore limit (S.state src.old).told (S.state src.new).told
        × ((S.state src.new).faults ≡ (S.state src.old).faults) }
{
    let mut buffer = read_buffer(alloc)?;
    let mut feed = ObjFeed::new(alloc);
    let mut room = limit;
    'pieces: loop {
        let count = feed_piece(src, room, &mut buffer, &mut feed)?;
        if count == 0 {
            return Ok(feed);
        }
        room -= count;
    }
}

/// Feeds what one read gives, at most `room` bytes, and says how much it was.
fn feed_piece<S: Source>(
    src: &mut S,
    room: u32,
    buffer: &mut [u8],
    feed: &mut ObjFeed,
) -> Result<u32, ReadFail>
    requires buffer { 0 < length buffer.old }
    requires stands { (text : Bytes) × StandsFor feed.old text × (length text + room ≤ MAX_BYTES) }
    ensures fed { IfOk result (FedPiece (S.state src.old).told (S.state src.new).told feed.old feed.new) }
    ensures fits { IfOk result (λ n. n ≤ room) }
    ensures end { IfOk result (λ n. n ≡ 0 → IsEmptied (S.state src.new).told) }
    ensures calm { OnOk result ((S.state src.new).faults ≡ (S.state src.old).faults) }
    ensures later { (S.state src.old).faults ≤ (S.state src.new).faults }
    ensures fault { IsErrOf result ReadFail.Fault → Rose (S.state src.old).faults (S.state src.new).faults }
    ensures too_long { IsErrOf result ReadFail.TooLong →
        GaveMore room (S.state src.old).told (S.state src.new).told
        × ((S.state src.new).faults ≡ (S.state src.old).faults) }
{
    let count = src.read(buffer)?;
    if count > room as usize {
        return Err(ReadFail::TooLong);
    }
    feed.feed(&buffer[..count])?;
    Ok(count as u32)
}
