//! What a call of the library does: the bytes that it takes and those that it hands over.
#![tactic(auto)]
