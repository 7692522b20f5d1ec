//! The laws of the motion of riders: what each state knows, its end, and that every order of events has one end.

#![tactic(auto)]
