//! Texts that go out piece by piece: what waits before a sink, and where a text differs from bytes that are given.
#![tactic(auto)]

use thiserror::Error;

/// Where a text goes takes no more of it.
#[derive(Clone, Copy, Debug, PartialEq, Eq, Error)]
#[error("the text goes no further")]
pub struct Stopped;
