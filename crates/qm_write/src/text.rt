//! The text of a remesh.

ghost use Rattle.std.specs.Prelude.{◌≡◌, ◌++◌, IfOk, IsErrOf, OnOk, OnErr};
ghost use Rattle.def_certtext.specs.CertLines.{certificates_of};
ghost use Rattle.def_remesh.specs.Keeping.{IsKept};
ghost use Rattle.def_remesh.specs.NewPoints.{lengths_in};
ghost use Rattle.def_remesh.specs.NewSoup.{spaced_soup};
ghost use Rattle.def_remesh.specs.Remeshed.{text_behind_head};
ghost use Rattle.def_remesh.specs.Tasks.{Wish};
ghost use Rattle.def_text.specs.Canonical.{canonical_text};

use crate::body::put_new_mesh;
use crate::remesh::Remesh;
use def_output::Stopped;
use def_remesh::DartShares;
use qm_certtext::{certs_text, used_cert};
use qm_output::Output;
use qm_stages::{CutMesh, Regridded};
use std::alloc::{AllocError, Global};
use thiserror::Error;

/// Why a text was not put whole.
#[derive(Clone, Copy, Debug, PartialEq, Eq, Error)]
pub enum PutFail {
    /// What it was put to stopped.
    #[error("the text goes no further")]
    Stopped,
    /// Before any of it was put.
    #[error("out of memory")]
    Memory,
}

impl From<AllocError> for PutFail {
    ghost use Rattle.qm_write.specs.declared.text.PutFail.TheVariants.{Memory};

    ghost from_gives = { λ _ e. e ≡ Memory };

    fn from(_: AllocError) -> PutFail {
        PutFail::Memory
    }
}

impl From<Stopped> for PutFail {
    ghost use Rattle.qm_write.specs.declared.text.PutFail.TheVariants.{Stopped as Broken};

    ghost from_gives = { λ _ e. e ≡ Broken };

    fn from(_: Stopped) -> PutFail {
        PutFail::Stopped
    }
}

/// A finished remesh with the shares by which its points are spaced, and what else stands in its text: the head line,
/// with its end, and the lines between the new mesh and the certificates.
#[derive(Debug, Drop)]
pub struct Framed {
    pub head: Vec<u8>,
    pub between: Vec<u8>,
    pub shares: Option<DartShares>,
    pub remesh: Remesh,
}

/// Puts the text of a remesh in this frame, and gives back the new mesh. It takes all memory before the first byte goes
/// out: that of the certificates' lines and of the new places. Its cost is that of `put_new_mesh`, and linear in the
/// lines of the frame and of the certificates.
pub fn put_framed<T: Output>(
    alloc: Global,
    out: &mut T,
    cut: CutMesh,
    framed: Framed,
) -> Result<Regridded, PutFail>
    requires kept { (wish : Wish) × IsKept wish cut.layout framed.remesh.terms.settings framed.remesh.terms.rising
        (certificates_of framed.remesh.certs) framed.remesh.numbering }
    ensures whole { OnOk result (T.takes out.old out.new (framed.head.items
        ++ text_behind_head framed.between.items framed.remesh.terms.rising cut.soup cut.layout
        framed.shares (certificates_of framed.remesh.certs))) }
    ensures part { IsErrOf result PutFail.Stopped → T.stops out.old out.new (framed.head.items
        ++ text_behind_head framed.between.items framed.remesh.terms.rising cut.soup cut.layout
        framed.shares (certificates_of framed.remesh.certs)) }
    ensures untouched { IsErrOf result PutFail.Memory → out.new ≡ out.old }
    ensures new { IfOk result (λ new. new ≡ record {
      soup = cut.soup;
      layout = cut.layout;
      lengths = framed.remesh.numbering.lengths.items;
      shares = framed.shares;
    }) }
{
    let Framed {
        head,
        between,
        shares,
        remesh,
    } = framed;
    let Remesh {
        terms,
        certs,
        numbering,
    } = remesh;
    let _layout = cut.layout();
    let certificates = certs_text(alloc, terms.rising, &certs)?;
    let new = Regridded::new(alloc, cut, numbering, &used_cert(&certs).x, shares)?;
    let frame = Frame {
        head,
        between,
        certificates,
    };
    put_parts(out, &frame, &new)?;
    Ok(new)
}

/// What stands before and behind the lines of the new mesh.
#[derive(Debug, Drop)]
struct Frame {
    head: Vec<u8>,
    between: Vec<u8>,
    certificates: Vec<u8>,
}

/// Puts the head line, the lines of the new mesh, those behind it, and those of the certificates.
fn put_parts<T: Output>(out: &mut T, frame: &Frame, new: &Regridded) -> Result<(), Stopped>
    ensures whole { OnOk result (T.takes out.old out.new (frame.now.head.items
        ++ (canonical_text (spaced_soup new.now.soup new.now.layout new.now.shares (lengths_in new.now.lengths))
        ++ (frame.now.between.items ++ frame.now.certificates.items)))) }
    ensures part { OnErr result (T.stops out.old out.new (frame.now.head.items
        ++ (canonical_text (spaced_soup new.now.soup new.now.layout new.now.shares (lengths_in new.now.lengths))
        ++ (frame.now.between.items ++ frame.now.certificates.items)))) }
{
    out.put(&frame.head)?;
    put_new_mesh(out, new)?;
    out.put(&frame.between)?;
    out.put(&frame.certificates)
}
