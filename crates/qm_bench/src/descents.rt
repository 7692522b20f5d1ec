//! The descent of a network to its least deviation, and what it took.

use crate::graphs::multiple;
use crate::left::deviation_of;
use crate::rounds::descend;
use def_flow::MAX_TANGLE;
use qm_net::{BoundedNet, LooseNet, is_within_bounds, tangle_of};
use qm_nettext::{NetFail, read_net};
use qm_solve::{first_descent, is_start, start_of};
use qm_warmstart::Start;
use std::alloc::{AllocError, Global};
use std::io;
use std::process::ExitCode;
use std::time::{Duration, Instant};

/// Where a descent begins.
#[derive(Clone, Copy, Debug, PartialEq, Eq)]
pub(crate) enum Beginning {
    /// At the start that the solver finds.
    Near,
    /// At a multiple of the old lengths, as where the solver finds no start.
    Old,
}

/// Tells the least deviation of the network of a text and what it took to find it. The seconds of the parts go to
/// standard error; reading began at the given instant. The status is 2 for a text that is no network, 3 for one out of
/// bounds, 4 for one too tangled, and 5 where no start was found.
pub(crate) fn tell_descent(
    rt: &HostRuntime,
    begun: Instant,
    text: &str,
    from: Beginning,
) -> io::Result<ExitCode> {
    let net = match read_net(rt.alloc(), text) {
        Ok(net) => net,
        Err(NetFail::NoNetwork) => return Ok(ExitCode::from(2)),
        Err(NetFail::Memory(refused)) => return Err(refused.into()),
    };
    if !is_within_bounds(&net) {
        return Ok(ExitCode::from(3));
    }
    let bounded = BoundedNet { whole: &net };
    let tangle = tangle_of(rt.alloc(), &bounded)?;
    if tangle > u128::from(MAX_TANGLE) {
        return Ok(ExitCode::from(4));
    }
    let reading = begun.elapsed(rt)?;
    let begun = Instant::now(rt)?;
    let start = begin(rt.alloc(), &bounded, from)?;
    let starting = begun.elapsed(rt)?;
    if !is_start(&bounded, &start.lengths) {
        return Ok(ExitCode::from(5));
    }
    let mut descent = first_descent(&LooseNet { whole: &net }, start);
    println!(rt; "tangle: {tangle}\nstart: {}", deviation_of(&descent))?;
    let rounds = descend(rt, &mut descent)?;
    let least = deviation_of(&descent);
    println!(rt;
        "rounds: {}\nsearches left: {}\nsets: {}\nleast: {least}",
        rounds.count, rounds.left, rounds.sets
    )?;
    tell_seconds(rt, "reading", reading)?;
    tell_seconds(rt, "start", starting)?;
    tell_seconds(rt, "rounds", rounds.turning)?;
    Ok(ExitCode::from(0))
}

/// The list that a descent begins with.
fn begin(alloc: Global, net: &BoundedNet, from: Beginning) -> Result<Start, AllocError> {
    match from {
        Beginning::Near => start_of(alloc, net),
        Beginning::Old => Ok(Start {
            lengths: multiple(alloc, net.whole)?,
            prices: Vec::new(alloc),
        }),
    }
}

/// Tells how long a part took.
fn tell_seconds(rt: &HostRuntime, name: &str, time: Duration) -> io::Result<()> {
    eprintln!(rt;
        "{name} seconds: {}.{:06}",
        time.as_secs(),
        time.subsec_micros()
    )
}
