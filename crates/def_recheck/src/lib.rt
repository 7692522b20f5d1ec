//! What `check` makes of a mesh and of what `remesh` wrote for it.
#![tactic(auto)]
