//! Lemmas on sums and counts, along lists and below bounds, and on tests as numbers.
#![tactic(auto)]
