//! What values are known to be: a mesh with a full cut of it, and a layout whose patches have four sides.
#![tactic(auto)]
