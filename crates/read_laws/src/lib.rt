//! The laws of bytes that are read: what their soup, marks and layouts are, and what is written for them.
#![tactic(auto)]

ghost use Rattle.def_readlaws.specs.ReadChains.{ChainSaidLaw, FinishedChainsLaw, FinishedMarksLaw, MarksAgainLaw};
ghost use Rattle.def_readlaws.specs.ReadLayouts.{OneChosenLaw, OneTracedLaw, TaskLayoutLaw};
ghost use Rattle.def_readlaws.specs.ReadMarks.{AsidesInLaw, MarksInLaw};
ghost use Rattle.def_readlaws.specs.ReadMeshes.{MeshTextLaw, SoupInLaw};
ghost use Rattle.def_readlaws.specs.ReadPairs.{AcceptsTextLaw};
ghost use Rattle.def_recheck.specs.Accepting.{AcceptsLaw};
ghost use Rattle.def_readlaws.specs.ReadSpots.{FinishedSpotsLaw, RefinedSpotsLaw, SpotTextLaw};

/// The soup of a text that is read can be written.
pub fn soup_in_law()
    ensures { SoupInLaw }
{}

/// The soup of the text of a mesh is what the laws of meshes ask for.
pub fn mesh_text_law()
    ensures { MeshTextLaw }
{}

/// Where no `l` line of the text of a mesh is refused, they mark inner edges of the mesh.
pub fn marks_in_law()
    ensures { MarksInLaw }
{}

/// So are those that a fit keeps.
pub fn asides_in_law()
    ensures { AsidesInLaw }
{}

/// The bytes of a mesh have exactly one layout.
pub fn one_traced_law()
    ensures { OneTracedLaw }
{}

/// They have exactly one for each fit, where no line that it looks at is refused.
pub fn one_chosen_law()
    ensures { OneChosenLaw }
{}

/// The cut of each task that a command asks for is a full cut, and it has exactly one layout.
pub fn task_layout_law()
    ensures { TaskLayoutLaw }
{}

/// What `remesh` writes for a mesh is accepted behind the text of that mesh.
pub fn accepts_law()
    ensures { AcceptsLaw }
{}

/// What it writes for bytes is accepted behind them.
pub fn accepts_text_law()
    ensures { AcceptsTextLaw }
{}

/// The place that is computed from where a new vertex lies is the one of its `v` line.
pub fn spot_text_law()
    ensures { SpotTextLaw }
{}

/// So it is in the new mesh that `refine` wrote.
pub fn refined_spots_law()
    ensures { RefinedSpotsLaw }
{}

/// So it is in the one that a command wrote which finds least lengths.
pub fn finished_spots_law()
    ensures { FinishedSpotsLaw }
{}

/// The chains of arcs in what it wrote are chains of new edges, and name each edge once.
pub fn finished_chains_law()
    ensures { FinishedChainsLaw }
{}

/// The `l` line of a chain says this chain, where it is read behind the text of its mesh.
pub fn chain_said_law()
    ensures { ChainSaidLaw }
{}

/// The lines of chains behind a canonical text are read again as the marks along these chains.
pub fn marks_again_law()
    ensures { MarksAgainLaw }
{}

/// The `l` lines that a command wrote are read again as the marks along the chains of its marked arcs.
pub fn finished_marks_law()
    ensures { FinishedMarksLaw }
{}
