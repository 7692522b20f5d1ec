//! Graphs that are known to be small: each with the fact that it is so.
#![tactic(auto)]
