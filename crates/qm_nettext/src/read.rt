//! The text of a network: a line `net nodes N arcs A floor F scale P/Q`, where each arc has the floor `F`, and for each
//! arc a line `arc OLD WEIGHT NODE SIGN NODE SIGN`, with `rim` in place of the second end at the boundary.

use crate::fail::NetFail;
use def_flow::{Arc, End, Net};
use std::alloc::{AllocError, Global};
use std::str::SplitWhitespace;

/// What the first line says.
#[derive(Drop)]
struct Head {
    nodes: u32,
    arcs: u32,
    floor: u32,
    p: u32,
    q: u32,
}

/// The network of a text. Linear. The network may have any numbers: who goes on with it tests it. No clause says which
/// network it is, since benchmarks and tests alone read this text: a wrong one shows in the lengths that they compare.
pub fn read_net(alloc: Global, text: &str) -> Result<Net, NetFail> {
    let mut words = text.split_whitespace();
    let head = read_head(&mut words).ok_or(NetFail::NoNetwork)?;
    let mut arcs = Vec::new(alloc);
    for _ in 0..head.arcs {
        let arc = read_arc(&mut words, head.floor).ok_or(NetFail::NoNetwork)?;
        arcs.push(arc).map_err(AllocError::from)?;
    }
    if words.next().is_some() {
        return Err(NetFail::NoNetwork);
    }
    Ok(Net {
        nodes: head.nodes,
        arcs,
        p: head.p,
        q: head.q,
    })
}

/// The first line.
fn read_head(words: &mut SplitWhitespace) -> Option<Head> {
    read_word(words, "net")?;
    let nodes = read_field(words, "nodes")?;
    let arcs = read_field(words, "arcs")?;
    let floor = read_field(words, "floor")?;
    read_word(words, "scale")?;
    let (p, q) = words.next()?.split_once("/")?;
    Some(Head {
        nodes,
        arcs,
        floor,
        p: p.parse::<u32>().ok()?,
        q: q.parse::<u32>().ok()?,
    })
}

/// The line of an arc with this floor.
fn read_arc(words: &mut SplitWhitespace, floor: u32) -> Option<Arc> {
    let old = read_field(words, "arc")?;
    let weight = read_number(words)?;
    let left = read_end(read_number(words)?, words)?;
    let node = words.next()?;
    let right = if node == "rim" {
        None
    } else {
        Some(read_end(node.parse::<u32>().ok()?, words)?)
    };
    Some(Arc {
        left,
        right,
        old,
        weight,
        floor,
    })
}

/// The end at a node, by its sign.
fn read_end(node: u32, words: &mut SplitWhitespace) -> Option<End> {
    let sign = words.next()?;
    if sign == "+" {
        Some(End { node, plus: true })
    } else if sign == "-" {
        Some(End { node, plus: false })
    } else {
        None
    }
}

/// The number after a word.
fn read_field(words: &mut SplitWhitespace, name: &str) -> Option<u32> {
    read_word(words, name)?;
    read_number(words)
}

fn read_word(words: &mut SplitWhitespace, name: &str) -> Option<()> {
    if words.next()? == name {
        Some(())
    } else {
        None
    }
}

fn read_number(words: &mut SplitWhitespace) -> Option<u32> {
    words.next()?.parse::<u32>().ok()
}
