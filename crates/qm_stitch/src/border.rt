//! The sides of patches, with where their arcs begin.

ghost use Rattle.std.specs.Prelude.{◌<◌, length};
ghost use Rattle.std.specs.List.{All};
ghost use Rattle.def_layout.specs.declared.tmesh.SideArc.{SideArc as Used};
ghost use Rattle.def_remesh.specs.Numberings.{sizes_on, AreRunStarts};
ghost use Rattle.qm_stitch.specs.Lengthened.{lengths_by};

use crate::numbered::Numbered;
use def_layout::SideArc;

/// A side of a patch: the arcs on it, which are some of the layout, and where they begin.
#[derive(Clone, Copy)]
pub(crate) struct Border<'a> {
    pub numbered: Numbered<'a>,
    pub arcs: &'a [SideArc],
    pub starts: &'a [u32],
    ghost some: { 0 < length arcs.now },
    ghost low: { All (λ (used : Used). used.arc < length numbered.t.now.arcs.items) arcs.now },
    ghost begun: { AreRunStarts (sizes_on arcs.now (lengths_by numbered)) (length arcs.now) starts.now },
}
