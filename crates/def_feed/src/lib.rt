//! A text that is taken in pieces: what is kept of it so far, and for which texts that stands.

#![tactic(auto)]
