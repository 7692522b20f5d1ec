//! The laws of where a new mesh lies in the old one: its vertices have the places that are computed from there.
#![tactic(auto)]

ghost use Rattle.def_map.specs.Laws.{SpotLaw};

/// Each new vertex lies in the old mesh, and the place that is computed from where it lies is its place.
pub fn spot_law()
    ensures { SpotLaw }
{}
