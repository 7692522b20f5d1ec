//! A graph with a perfect matching, as text: a line `graph N M`, a line `U V COST` for each edge, and the word `known`
//! with the numbers of the matching's edges. All are counted from 0.

use def_matching::{WEdge, WGraph};
use std::alloc::{AllocError, Global};
use std::str::SplitWhitespace;

/// A graph, and a perfect matching of it that is known.
#[derive(Drop)]
pub(crate) struct Task {
    pub(crate) graph: WGraph,
    pub(crate) known: Vec<u32>,
}

/// The graph and the matching of a text, or none where it is no such text. Their numbers may be any.
pub(crate) fn read_task(alloc: Global, text: &str) -> Result<Option<Task>, AllocError> {
    let mut words = text.split_whitespace();
    let Some((n, count)) = read_head(&mut words) else {
        return Ok(None);
    };
    let mut edges = Vec::new(alloc);
    for _ in 0..count {
        let Some(edge) = read_edge(&mut words) else {
            return Ok(None);
        };
        edges.push(edge)?;
    }
    let mut known = Vec::new(alloc);
    let _ = words.next();
    while let Some(word) = words.next() {
        known.push(word.parse::<u32>().unwrap_or(u32::MAX))?;
    }
    let graph = WGraph { n, edges };
    Ok(Some(Task { graph, known }))
}

/// How many vertices and edges there are.
fn read_head(words: &mut SplitWhitespace) -> Option<(u32, u32)> {
    words.next()?;
    let vertices = words.next()?.parse::<u32>().ok()?;
    let edges = words.next()?.parse::<u32>().ok()?;
    Some((vertices, edges))
}

/// An edge.
fn read_edge(words: &mut SplitWhitespace) -> Option<WEdge> {
    let u = words.next()?.parse::<u32>().ok()?;
    let v = words.next()?.parse::<u32>().ok()?;
    let cost = words.next()?.parse::<i64>().ok()?;
    Some(WEdge { u, v, cost })
}

/// The text of a graph and a matching.
pub(crate) fn task_text(alloc: Global, g: &WGraph, known: &[u32]) -> Result<String, AllocError> {
    let mut text = format!(in alloc; "graph {} {}\n", g.n, g.edges.len())?;
    for edge in &g.edges {
        let line = format!(in alloc; "{} {} {}\n", edge.u, edge.v, edge.cost)?;
        text.push_str(&line)?;
    }
    text.push_str("known\n")?;
    for e in known {
        let line = format!(in alloc; "{e}\n")?;
        text.push_str(&line)?;
    }
    Ok(text)
}
