//! The mesh of a source, or of a text that it gave.

ghost use Rattle.std.specs.Prelude.{◌≡◌, ◌≤◌, length, IfOk, IfErr, OnOk};
ghost use Rattle.def_io.specs.Moves.{change};
ghost use Rattle.def_mesh.specs.Manifold.{IsManifold};
ghost use Rattle.def_run.specs.Mesh.{IsMeshText};
ghost use Rattle.def_text.specs.Input.{ReadSoup};
ghost use Rattle.qm_top.specs.Meshless.{IsMeshless};
ghost use Rattle.qm_top.specs.Refusals.{IsInputRefusal, IsNoMeshOf};

use crate::named::named_place;
use crate::refusal::Refusal;
use def_text::{MAX_BYTES, MAX_F_LINES, MAX_V_LINES, Soup};
use qm_io::{Lines, Source};
use qm_obj::{read_obj, read_soup};
use qm_stages::{Meshed, NoMesh};
use std::alloc::Global;

/// The mesh of the whole input.
pub(crate) fn read_mesh<S: Source>(alloc: Global, input: &mut S) -> Result<Meshed, Refusal>
    ensures soup { IfOk result (ReadSoup MAX_BYTES (S.state input.old).told (S.state input.new).told) }
    ensures manifold { IfOk result (λ read. IsManifold read.faces) }
    ensures calm { OnOk result ((S.state input.new).faults ≡ (S.state input.old).faults) }
    ensures refused { IfErr result (IsInputRefusal
        (change (S.state input.old) (S.state input.new))) }
{
    let soup = read_soup(alloc, input, MAX_BYTES)?;
    mesh_of(alloc, soup)
}

/// The mesh of a text.
pub(crate) fn text_mesh(alloc: Global, lines: &Lines) -> Result<Meshed, Refusal>
    ensures mesh { IfOk result (λ read. IsMeshText lines.now read) }
    ensures few { IfOk result (λ read. length read.pos ≤ MAX_V_LINES) }
    ensures refused { IfErr result (IsMeshless lines.now) }
{
    let after = lines.count();
    let soup = read_obj(alloc, lines, 0, after)?;
    mesh_of(alloc, soup)
}

/// The mesh of the soup's faces, or the first place where they are no manifold.
pub(crate) fn mesh_of(alloc: Global, soup: Soup) -> Result<Meshed, Refusal>
    requires few { (length soup.pos ≤ MAX_V_LINES) × (length soup.faces ≤ MAX_F_LINES) }
    ensures soup { IfOk result (λ read. read ≡ soup) }
    ensures manifold { OnOk result (IsManifold soup.faces) }
    ensures refused { IfErr result (IsNoMeshOf soup) }
{
    match Meshed::new(alloc, soup) {
        Ok(read) => Ok(read),
        Err(NoMesh::NotManifold { place, soup }) => {
            Err(Refusal::NotManifold(named_place(place, soup)))
        }
        Err(NoMesh::Memory) => Err(Refusal::Memory),
    }
}
