//! The old text, in front of the head line.

ghost use Rattle.std.specs.Prelude.{◌≡◌, ◌≢◌, ◌≤◌, length, Ok, Err, IfErr, IfOk};
ghost use Rattle.def_io.specs.Bytes.{Bytes};
ghost use Rattle.def_text.specs.Text.{soup_in};
ghost use Rattle.qm_check.specs.Ready.{IsNoOld, IsOld};
ghost use Rattle.qm_check.specs.Refused.{of_obj};

use crate::parts::SmallText;
use def_run::CheckFail;
use def_text::{MAX_F_LINES, MAX_V_LINES, ObjFail, Soup};
use qm_obj::ObjFeed;
use qm_stages::{Meshed, NoMesh};
use std::alloc::Global;

/// The mesh of the old text.
pub(crate) fn read_old(alloc: Global, text: &SmallText) -> Result<Meshed, CheckFail>
    ensures old { IfOk result (IsOld text.now.bytes.now) }
    ensures refused { IfErr result (IsNoOld text.now.bytes.now) }
{
    match read_text(alloc, text) {
        Ok(soup) => mesh_of(alloc, soup),
        Err(fail) => Err(refusal_of(fail)),
    }
}

/// The soup of a text.
fn read_text(alloc: Global, text: &SmallText) -> Result<Soup, ObjFail>
    ensures soup { IfOk result (λ soup. soup_in text.now.bytes.now ≡ Ok soup) }
    ensures few { IfOk result (λ soup. (length soup.pos ≤ MAX_V_LINES) × (length soup.faces ≤ MAX_F_LINES)) }
    ensures refused { IfErr result (λ fail. fail ≢ ObjFail.Memory → soup_in text.now.bytes.now ≡ Err fail) }
{
    let mut feed = ObjFeed::new(alloc);
    feed.feed(text.bytes)?;
    feed.finish()
}

/// The refusal of an old text that has no soup.
fn refusal_of(fail: ObjFail) -> CheckFail
    ensures { result ≡ of_obj fail }
{
    match fail {
        ObjFail::Memory => CheckFail::Memory,
        _ => CheckFail::Old { fail },
    }
}

/// The mesh of the soup of a text, or the first place where its faces are no manifold.
fn mesh_of(alloc: Global, soup: Soup) -> Result<Meshed, CheckFail>
    requires { (length soup.pos ≤ MAX_V_LINES) × (length soup.faces ≤ MAX_F_LINES) }
    ensures old { (text : Bytes) → soup_in text ≡ Ok soup → IfOk result (IsOld text) }
    ensures refused { (text : Bytes) → soup_in text ≡ Ok soup → IfErr result (IsNoOld text) }
{
    match Meshed::new(alloc, soup) {
        Ok(old) => Ok(old),
        Err(NoMesh::NotManifold { place, soup }) => Err(CheckFail::NotManifold { place, soup }),
        Err(NoMesh::Memory) => Err(CheckFail::Memory),
    }
}
