//! Sums, counts, searches and increasing lists: definitions alone, which know nothing of meshes or networks.
#![tactic(auto)]
