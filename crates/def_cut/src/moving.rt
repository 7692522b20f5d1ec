//! A rider while it moves.

use crate::Stop;

/// A rider in motion: its next dart while it runs, how many darts it rode, and its stop. Once it has stopped, the dart
/// is the last that it rode.
#[derive(Clone, Copy, Debug, PartialEq, Eq)]
pub struct Moving {
    pub dart: u32,
    pub rides: u32,
    pub stop: Option<Stop>,
}
