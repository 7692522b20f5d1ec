//! Tests of matchings and of lengths over networks: small graphs and networks, with values that were found by others.
#![tactic(auto)]

#[cfg(test)]
mod certificates;
#[cfg(test)]
mod descents;
#[cfg(test)]
mod duals;
#[cfg(test)]
mod graphs;
#[cfg(test)]
mod matchings;
#[cfg(test)]
mod samples;
#[cfg(test)]
mod starts;
#[cfg(test)]
mod tours;
