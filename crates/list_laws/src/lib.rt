//! Lemmas on lists that are filtered and searched.
#![tactic(auto)]
