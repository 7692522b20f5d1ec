//! The rounds of a descent, counted and timed.

use crate::left::searches_left;
use qm_solve::{Descent, turn};
use std::io;
use std::time::{Duration, Instant};

/// How many rounds there were, how many searches their first duals left, how many sets the last dual has, and how long
/// the rounds took.
#[derive(Clone, Copy, Debug)]
pub(crate) struct Rounds {
    pub(crate) count: u64,
    pub(crate) left: u64,
    pub(crate) sets: usize,
    pub(crate) turning: Duration,
}

/// Turns a descent until its list is least.
pub(crate) fn descend(rt: &HostRuntime, descent: &mut Descent) -> io::Result<Rounds> {
    let (mut count, mut left, mut turning) = (0u64, 0u64, Duration::ZERO);
    loop {
        count = count.saturating_add(1);
        left = left.saturating_add(searches_left(rt.alloc(), descent)?);
        let begun = Instant::now(rt)?;
        let found = turn(rt.alloc(), descent)?;
        turning = turning.saturating_add(begun.elapsed(rt)?);
        if let Some(dual) = found {
            return Ok(Rounds {
                count,
                left,
                sets: dual.z.len(),
                turning,
            });
        }
    }
}
