//! Lemmas on tables of numbers: what is added at a place, ranges, and tallies of lists.
#![tactic(auto)]
