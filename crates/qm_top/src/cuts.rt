//! A mesh with the cut that a command remeshes it over.

ghost use Rattle.std.specs.Prelude.{◌≡◌, option_copied, IfOk};
ghost use Rattle.def_patches.specs.Chosen.{AreKeptMarks, IsChosenLayout};
ghost use Rattle.def_remesh.specs.Placings.{IsMeshLayout};
ghost use Rattle.def_run.specs.Remesh.{IsTracedLayout};

use def_patches::Patches;
use qm_cut::{chosen_layout, traced_layout};
use qm_io::Memory;
use qm_stages::{CutMesh, Meshed};
use std::alloc::Global;

/// A mesh with its motorcycle graph.
pub(crate) fn traced_cut(alloc: Global, read: Meshed) -> Result<CutMesh, Memory>
    ensures soup { IfOk result (λ cut. cut.soup ≡ read) }
    ensures traced { IfOk result (λ cut. IsTracedLayout cut.soup.faces cut.layout) }
    ensures laid { IfOk result (λ cut. IsMeshLayout cut.soup.faces cut.layout) }
{
    let layout = traced_layout(alloc, read.mesh())?;
    Ok(CutMesh::new(read, layout))
}

/// A mesh with the cut that is chosen: the one that keeps these marked edges, or the one without marks.
pub(crate) fn chosen_cut(
    alloc: Global,
    read: Meshed,
    kept: Option<&[bool]>,
    patches: Patches,
) -> Result<CutMesh, Memory>
    requires { AreKeptMarks read.faces (option_copied kept) }
    ensures soup { IfOk result (λ cut. cut.soup ≡ read) }
    ensures chosen { IfOk result (λ cut. IsChosenLayout cut.soup.faces (option_copied kept.entry) patches cut.layout) }
    ensures laid { IfOk result (λ cut. IsMeshLayout cut.soup.faces cut.layout) }
{
    let layout = chosen_layout(alloc, read.mesh(), kept, patches)?;
    Ok(CutMesh::new(read, layout))
}
