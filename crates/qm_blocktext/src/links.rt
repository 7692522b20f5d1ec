//! The links of blocks, and their lines.

ghost use Rattle.std.specs.Prelude.{◌≤◌, map, IfOk, OnOk, OnErr};
ghost use Rattle.std.specs.List.{flat_map};
ghost use Rattle.def_layout.specs.Arcs.{long_at};
ghost use Rattle.def_layout.specs.Layouts.{gluing_of};
ghost use Rattle.def_remesh.specs.NewPoints.{multiple_of};
ghost use Rattle.def_run.specs.declared.command.TheConstants.{MAX_MULTIPLE};
ghost use Rattle.def_blocks.specs.BlockTexts.{link_line};
ghost use Rattle.def_blocks.specs.Links.{AreLinks};
ghost use Rattle.def_cuttext.specs.GridsText.{arc_link_lines, links_text};
ghost use Rattle.qm_blocktext.specs.Gridded.{arcs_of};

use crate::arcs::arc_at;
use crate::line::{arc_link_of, link_of, put_line};
use def_blocks::Link;
use def_cuttext::Chosen;
use def_layout::Side;
use def_output::Stopped;
use qm_blocks::links;
use qm_output::Output;
use qm_refine::multiples;
use qm_stages::CutMesh;
use std::alloc::{AllocError, Global};

/// The links of the blocks of a layout with `by` times its old lengths. Linear in the arcs.
pub fn links_by(alloc: Global, cut: &CutMesh, by: u32) -> Result<Vec<Vec<Link>>, AllocError>
    requires { by ≤ MAX_MULTIPLE }
    ensures { IfOk result (λ links. AreLinks (gluing_of cut.now.layout) (multiple_of by (long_at cut.now.layout.arcs))
        (map (λ block. block.items) links.items)) }
{
    let lengths = multiples(alloc, cut, by)?;
    links(alloc, cut.layout(), &lengths)
}

/// Puts the lines of links, those of a chosen cut with the numbers of their arcs.
pub(crate) fn put_links<T: Output>(
    out: &mut T,
    chosen: Option<Chosen>,
    links: &[Link],
    sides: &[Side],
) -> Result<(), Stopped>
    ensures whole { OnOk result (T.takes out.old out.new (links_text chosen links.now (arcs_of sides.now))) }
    ensures part { OnErr result (T.stops out.old out.new (links_text chosen links.now (arcs_of sides.now))) }
{
    match chosen {
        None => put_plain(out, links),
        Some(_) => put_along(out, links, sides),
    }
}

/// Puts the lines of links.
fn put_plain<T: Output>(out: &mut T, links: &[Link]) -> Result<(), Stopped>
    ensures whole { OnOk result (T.takes out.old out.new (flat_map link_line links.now)) }
    ensures part { OnErr result (T.stops out.old out.new (flat_map link_line links.now)) }
{
    for link in links {
        put_line(out, &link_of(link))?;
    }
    Ok(())
}

/// Puts the lines of the links along these sides, with the numbers of their arcs.
fn put_along<T: Output>(out: &mut T, links: &[Link], sides: &[Side]) -> Result<(), Stopped>
    ensures whole { OnOk result (T.takes out.old out.new (arc_link_lines links.now (arcs_of sides.now))) }
    ensures part { OnErr result (T.stops out.old out.new (arc_link_lines links.now (arcs_of sides.now))) }
{
    for at in 0..links.len() {
        let Some(arc) = arc_at(sides, at) else {
            return Ok(());
        };
        put_line(out, &arc_link_of(&links[at], arc))?;
    }
    Ok(())
}
