//! The mesh that a layout gives at new lengths: its points, faces, edges and places, and what it keeps of the old mesh.
#![tactic(auto)]
