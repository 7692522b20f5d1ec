//! The law that each full cut of a mesh has exactly one layout.
#![tactic(auto)]

ghost use Rattle.def_remesh.specs.LayoutLaws.{LayoutLaw, TracedLayoutLaw};

/// Each full cut of a mesh has exactly one layout.
pub fn layout_law()
    ensures { LayoutLaw }
{}

/// So has the motorcycle graph of each mesh.
pub fn traced_layout_law()
    ensures { TracedLayoutLaw }
{}
