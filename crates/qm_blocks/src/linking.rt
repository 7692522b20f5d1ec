//! The links of blocks.

ghost use Rattle.std.specs.Prelude.{◌≡◌, ◌≤◌, ◌<◌, ◌++◌, ℕ, length, map, IfOk, OnOk};
ghost use Rattle.def_flow.specs.declared.limits.TheConstants.{MAX_LENGTH};
ghost use Rattle.def_layout.specs.Gluings.{Way};
ghost use Rattle.def_layout.specs.Layouts.{gluing_of, layout_of, way_number};
ghost use Rattle.def_layoutnet.specs.MeshLayouts.{IsSomeLayout};
ghost use Rattle.def_remesh.specs.NewPoints.{lengths_in};
ghost use Rattle.def_blocks.specs.Links.{AreLinks};
ghost use Rattle.qm_blocks.specs.Spots.{block_links, link_from, links_on, side_links, IsSummed};

use crate::measured::{Measured, Spotted};
use crate::spots::{back_key, name_of, spots_of};
use def_blocks::{Link, SideName};
use def_layout::{SideArc, TMesh};
use qm_offsets::side_of;
use std::alloc::{AllocError, Global};

/// The links of each block, side after side, each along its side. Linear in the arcs.
pub fn links(alloc: Global, t: &TMesh, x: &[u64]) -> Result<Vec<Vec<Link>>, AllocError>
    requires layout { IsSomeLayout (layout_of t.now) }
    requires long { length x.now ≡ length t.now.arcs.items }
    requires bounded { (arc : ℕ) → lengths_in x.now arc ≤ MAX_LENGTH }
    ensures { IfOk result (λ links. AreLinks (gluing_of (layout_of t.now)) (lengths_in x.now)
        (map (λ block. block.items) links.items)) }
{
    let measured = Measured { t, x };
    let table = spots_of(alloc, &measured)?;
    let spotted = Spotted {
        measured,
        table: &table,
    };
    let mut links = Vec::with_capacity(alloc, t.patches.len())?;
    for block in 0..t.patches.len() {
        let here = block_links(alloc, &spotted, block)?;
        links.push(here)?;
    }
    Ok(links)
}

/// The links of a block.
fn block_links(alloc: Global, spotted: &Spotted, block: usize) -> Result<Vec<Link>, AllocError>
    requires { block < length spotted.now.measured.t.now.patches.items }
    ensures { IfOk result (λ links. links.items ≡ block_links (layout_of spotted.now.measured.t.now)
        (lengths_in spotted.now.measured.x.now) spotted.now.table.now block) }
{
    let t = spotted.measured.t;
    let mut links = Vec::new(alloc);
    push_links(&mut links, spotted, side_of(t, block, 0), name_of(0))?;
    push_links(&mut links, spotted, side_of(t, block, 1), name_of(1))?;
    push_links(&mut links, spotted, side_of(t, block, 2), name_of(2))?;
    push_links(&mut links, spotted, side_of(t, block, 3), name_of(3))?;
    Ok(links)
}

/// Puts the links of a side behind those that stand there.
fn push_links(
    links: &mut Vec<Link>,
    spotted: &Spotted,
    side: &[SideArc],
    name: SideName,
) -> Result<(), AllocError>
    requires { IsSummed side.now spotted.now.measured.x.now }
    ensures { OnOk result (links.new.items ≡ links.old.items
        ++ links_on spotted.now.table.now (lengths_in spotted.now.measured.x.now) name side.now) }
{
    let mut from = 0;
    for used in side {
        let link = link_at(spotted, *used, name, from);
        links.push(link)?;
        from += link.len;
    }
    Ok(())
}

/// The link of an arc in use on a side, from this point on.
pub(crate) fn link_at(spotted: &Spotted, used: SideArc, side: SideName, from: u64) -> Link
    requires { used.arc < length spotted.now.measured.x.now }
    ensures { result
        ≡ link_from spotted.now.table.now (lengths_in spotted.now.measured.x.now) used side from }
{
    Link {
        side,
        from,
        len: spotted.measured.x[used.arc as usize],
        other: spotted.table[back_key(used)],
    }
}
