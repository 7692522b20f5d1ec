//! Lemmas on errors that are handed on.
#![tactic(auto)]
