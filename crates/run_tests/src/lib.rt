//! Tests of whole runs: streams of any step, with a fault in each place, and the exit status.
#![tactic(auto)]

#[cfg(test)]
mod runs;
