//! A task that is finished, written out.

ghost use Rattle.std.specs.Prelude.{◌≡◌, ◌≢◌, ◌++◌, ◌∷◌, [], List, Bool, IfErr, IsErrOf, OnOk};
ghost use Rattle.def_certtext.specs.CertLines.{certificates_of};
ghost use Rattle.def_certtext.specs.Risings.{may_rise};
ghost use Rattle.def_certtext.specs.Settings.{AreInRange};
ghost use Rattle.def_certtext.specs.declared.certs.Rising.TheVariants.{Rounds};
ghost use Rattle.def_io.specs.Bytes.{Bytes};
ghost use Rattle.def_io.specs.Faults.{Rose};
ghost use Rattle.def_io.specs.Moves.{change, stream, took, TookPrefix};
ghost use Rattle.def_io.specs.declared.TheConstants.{LINE_FEED};
ghost use Rattle.def_layout.specs.FaceLayouts.{IsCutLayout};
ghost use Rattle.def_remesh.specs.Keeping.{IsKept};
ghost use Rattle.def_remesh.specs.Tasks.{Wish};
ghost use Rattle.remesh_laws.specs.Keeps.{ShowsTask};
ghost use Rattle.qm_top.specs.Finishing.{headed_task};
ghost use Rattle.qm_top.specs.Writing.{FailsTask, IsOfLayout, IsUnwritten, WroteText};
ghost use Rattle.qm_write.specs.Framing.{framed_text};

use crate::refusal::Refusal;
use def_certtext::Terms;
use qm_io::Sink;
use qm_output::{Buffer, Room};
use qm_remesh::keep;
use qm_stages::CutMesh;
use qm_write::{Framed, PutFail, put_framed};
use std::alloc::Global;

/// What lengths are found by, and the head line of the text, with its line feed.
#[derive(Drop)]
pub(crate) struct Headed {
    pub(crate) terms: Terms,
    pub(crate) head: Vec<u8>,
}

/// Finds lengths nearest to the old ones, and writes the text of a task that asks for them and puts nothing between.
pub(crate) fn finish<O: Sink>(
    alloc: Global,
    cut: CutMesh,
    headed: Headed,
    out: &mut O,
) -> Result<(), Refusal>
    requires known { headed.terms.rising ≢ Rounds }
    requires settings { AreInRange headed.terms.settings (may_rise headed.terms.rising) }
    ensures done { (marks : List Bool) (head : Bytes) → IsCutLayout cut.soup.faces marks cut.layout
        → headed.head.items ≡ head ++ LINE_FEED ∷ []
        → OnOk result (WroteText (ShowsTask (headed_task headed.terms marks head) cut.soup)
        (change (O.state out.old) (O.state out.new))) }
    ensures refused { (marks : List Bool) (head : Bytes) → IsCutLayout cut.soup.faces marks cut.layout
        → headed.head.items ≡ head ++ LINE_FEED ∷ []
        → IfErr result (IsUnwritten (ShowsTask (headed_task headed.terms marks head) cut.soup)
        (IsOfLayout (FailsTask (headed_task headed.terms marks head) cut.soup)) (stream O.state out.old out.new)) }
{
    let remesh = keep(alloc, &cut, headed.terms)?;
    let framed = Framed {
        head: headed.head,
        between: Vec::new(alloc),
        remesh,
        shares: None,
    };
    write_framed(alloc, cut, framed, out)?;
    Ok(())
}

/// Writes the text of a remesh in its frame through a buffer.
pub(crate) fn write_framed<O: Sink>(
    alloc: Global,
    cut: CutMesh,
    framed: Framed,
    out: &mut O,
) -> Result<(), PutFail>
    requires { (wish : Wish) × IsKept wish cut.layout framed.remesh.terms.settings framed.remesh.terms.rising
        (certificates_of framed.remesh.certs) framed.remesh.numbering }
    ensures whole { OnOk result ((O.state out.new).told
        ≡ took (O.state out.old).told (framed_text framed cut.soup cut.layout)) }
    ensures prefix { IsErrOf result PutFail.Stopped → TookPrefix (O.state out.old).told (O.state out.new).told
        (framed_text framed cut.soup cut.layout) }
    ensures fault { IsErrOf result PutFail.Stopped → Rose (O.state out.old).faults (O.state out.new).faults }
    ensures untouched { IsErrOf result PutFail.Memory → out.new ≡ out.old }
{
    let mut room = Room::new(alloc)?;
    let mut text = Buffer::new(out, &mut room);
    put_framed(alloc, &mut text, cut, framed)?;
    text.flush()?;
    Ok(())
}
