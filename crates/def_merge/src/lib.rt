//! What it is to merge the patches of a full cut: which arcs may leave, also beside marked lines, and the cut that is
//! left when none may.

#![tactic(auto)]
