//! What feature lines are: edges that are marked by `l` lines, the motion that keeps them in the cut, and the
//! conforming cut beside them.

#![tactic(auto)]
