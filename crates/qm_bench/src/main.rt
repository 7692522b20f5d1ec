//! Work to be timed, a word each: the parts of the solver, and the texts of certificates.
#![tactic(auto)]

mod certs;
mod descents;
mod graphs;
mod known;
mod left;
mod network;
mod rounds;
mod sets;
mod work;

use crate::certs::tell_certificate;
use crate::descents::{Beginning, tell_descent};
use crate::graphs::{match_text, write_graph};
use crate::work::tell_work;
use std::env::{self, Env};
use std::io;
use std::process::ExitCode;
use std::time::Instant;

/// The first word is what to do, and the second how often; once where there is none:
///
/// - `graph`, `nest`, `tree`, `comb`: the matching graph of a network of 10,000 arcs, or the verdict on a dual over it;
/// - `descend`: reads a network, and tells its least deviation and what it took to find it;
/// - `descend_old`: does so without a start;
/// - `pair`: reads a network, and writes its matching graph with a perfect matching;
/// - `match`: reads such a graph, and tells what a least matching costs;
/// - `read`, `write`: reads the text of a remesh, and reads or writes the lines of its certificate.
///
/// With no words it reads a network, and does all but the last two. The status is 2 where the input is not what it
/// should be.
fn main(rt: HostRuntime) -> io::Result<ExitCode> {
    let mut words = env::args(&rt)?.skip(1);
    let Some(name) = words.next() else {
        return do_all(&rt);
    };
    let times = match words.next() {
        Some(word) => word.parse::<u32>().unwrap_or(1),
        None => 1,
    };
    match name.as_str() {
        "graph" | "nest" | "tree" | "comb" => tell_work(&rt, name.as_str(), times),
        "read" | "write" => tell_certificate(&rt, name.as_str() == "write", times),
        "descend" => descend(&rt, Beginning::Near),
        "descend_old" => descend(&rt, Beginning::Old),
        "pair" => {
            let text = io::read_to_string(rt.alloc(), rt.reader())?;
            tell(&rt, write_graph(rt.alloc(), text.as_str())?)
        }
        "match" => {
            let text = io::read_to_string(rt.alloc(), rt.reader())?;
            tell(&rt, match_text(rt.alloc(), text.as_str(), times)?)
        }
        _ => Ok(ExitCode::from(2)),
    }
}

/// Reads a network, and tells of its descent.
fn descend(rt: &HostRuntime, from: Beginning) -> io::Result<ExitCode> {
    let begun = Instant::now(rt)?;
    let text = io::read_to_string(rt.alloc(), rt.reader())?;
    tell_descent(rt, begun, text.as_str(), from)
}

/// All work on networks, once.
fn do_all(rt: &HostRuntime) -> io::Result<ExitCode> {
    for name in ["graph", "nest", "tree", "comb"] {
        tell_work(rt, name, 1)?;
    }
    let begun = Instant::now(rt)?;
    let text = io::read_to_string(rt.alloc(), rt.reader())?;
    tell_descent(rt, begun, text.as_str(), Beginning::Near)?;
    match write_graph(rt.alloc(), text.as_str())? {
        Some(pair) => tell(rt, match_text(rt.alloc(), pair.as_str(), 1)?),
        None => Ok(ExitCode::from(2)),
    }
}

/// Writes a text, if there is one.
fn tell(rt: &HostRuntime, text: Option<String>) -> io::Result<ExitCode> {
    match text {
        Some(text) => {
            print!(rt; "{text}")?;
            Ok(ExitCode::SUCCESS)
        }
        None => Ok(ExitCode::from(2)),
    }
}
