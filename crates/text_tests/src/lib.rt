//! Tests of streams, texts, decimals and command lines.
#![tactic(auto)]

#[cfg(test)]
mod decimals;
#[cfg(test)]
mod soups;
#[cfg(test)]
mod streams;
#[cfg(test)]
mod words;
