//! Laws of a search that lets the matching grow: its keys, what each step leaves to do, and how far numbers go.
#![tactic(auto)]
