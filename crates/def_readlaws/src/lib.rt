//! What is proved of the bytes that are read.
#![tactic(auto)]
