//! All remedies of doubled pairs.

ghost use Rattle.std.specs.Prelude.{◌≡◌, ◌↔◌, ◌<◌, length, IfOk, IsTrue, OnOk};
ghost use Rattle.std.specs.List.{All, Contains};
ghost use Rattle.def_flow.specs.declared.limits.TheConstants.{MAX_FLOOR};
ghost use Rattle.def_layout.specs.declared.tmesh.SideArc.{SideArc as Used};
ghost use Rattle.qm_stitch.specs.Lengthened.{gluing_in, lengths_by};
ghost use Rattle.qm_stitch.specs.Remedies.{price_along as price_of_uses, short_price as price_if_short};
ghost use Rattle.qm_stitch.specs.Remedies.{AddsRemedies, IsAlong, IsAlongArcs, IsAlongPatches, IsAlongSides};
ghost use Rattle.qm_stitch.specs.Remedies.{IsByLine, IsPricedRemedy, IsSomeShort};
ghost use Rattle.qm_stitch.specs.Rims.{IsLine, IsRepeat};
ghost use Rattle.qm_stitch.specs.declared.remedy.Remedy.{Remedy as AnyRemedy};
ghost use Rattle.qm_stitch.specs.declared.remedy.Run.TheVariants.{Arc, Side};

use crate::priced::Priced;
use crate::remedy::{Remedy, Run};
use crate::repeat::is_repeat;
use crate::rim::{Line, arc_key, key_at, side_along};
use crate::rises::is_short;
use crate::size::size_at;
use def_layout::SideArc;
use qm_offsets::side_of;
use std::alloc::{AllocError, Global};

/// All remedies of doubled pairs. n log n in the edges that have an end on a side of a patch.
pub(crate) fn remedies(alloc: Global, priced: &Priced) -> Result<Vec<Remedy>, AllocError>
    ensures { IfOk result (λ found. (remedy : AnyRemedy) → Contains found.items remedy
        ↔ IsPricedRemedy priced.now remedy) }
{
    let mut found = Vec::new(alloc);
    push_arcs(&mut found, priced)?;
    push_patches(&mut found, priced)?;
    Ok(found)
}

/// Puts the remedies along all arcs behind the others.
fn push_arcs(found: &mut Vec<Remedy>, priced: &Priced) -> Result<(), AllocError>
    ensures { OnOk result (AddsRemedies found.old.items found.new.items (IsAlongArcs priced.now
        (length priced.now.keyed.numbered.t.now.arcs.items))) }
{
    for arc in 0..priced.keyed.numbered.t.arcs.len() {
        push_arc(found, priced, arc)?;
    }
    Ok(())
}

/// Puts the remedies along an arc behind the others.
fn push_arc(found: &mut Vec<Remedy>, priced: &Priced, arc: usize) -> Result<(), AllocError>
    requires arc { arc < length priced.now.keyed.numbered.t.now.arcs.items }
    ensures { OnOk result (AddsRemedies found.old.items found.new.items (IsAlong priced.now (Arc arc))) }
{
    if !is_short_arc(priced, arc) {
        return Ok(());
    }
    for k in 0..priced.keyed.numbered.tables.lengths[arc] {
        let remedy = Remedy {
            key: arc_key(&priced.keyed.numbered, arc, k),
            price: i128::from(short_price(priced, arc)),
            run: Run::Arc(arc),
        };
        push_remedy(found, priced, remedy)?;
    }
    Ok(())
}

/// Puts the remedies along the sides of all patches behind the others.
fn push_patches(found: &mut Vec<Remedy>, priced: &Priced) -> Result<(), AllocError>
    ensures { OnOk result (AddsRemedies found.old.items found.new.items (IsAlongPatches priced.now
        (length priced.now.keyed.numbered.t.now.patches.items))) }
{
    for patch in 0..priced.keyed.numbered.t.patches.len() {
        push_sides(found, priced, patch)?;
    }
    Ok(())
}

/// Puts the remedies along the sides of a patch behind the others.
fn push_sides(found: &mut Vec<Remedy>, priced: &Priced, patch: usize) -> Result<(), AllocError>
    requires patch { patch < length priced.now.keyed.numbered.t.now.patches.items }
    ensures { OnOk result (AddsRemedies found.old.items found.new.items (IsAlongSides priced.now patch 4)) }
{
    for side in 0..4 {
        push_side(found, priced, patch, side)?;
    }
    Ok(())
}

/// Puts the remedies along a side of a patch behind the others: rows run along the south and the north, columns along
/// the east and the west.
fn push_side(
    found: &mut Vec<Remedy>,
    priced: &Priced,
    patch: usize,
    side: usize,
) -> Result<(), AllocError>
    requires patch { patch < length priced.now.keyed.numbered.t.now.patches.items }
    requires side { side < 4 }
    ensures { OnOk result (AddsRemedies found.old.items found.new.items (IsAlong priced.now (Side patch side))) }
{
    let uses = side_of(priced.keyed.numbered.t, patch, side);
    if !is_some_short(priced, uses) {
        return Ok(());
    }
    let price = price_along(priced, uses);
    let upright = side % 2 == 1;
    for number in 1..size_at(&priced.keyed.numbered, patch, side_along(!upright)) {
        let line = Line {
            patch,
            upright,
            number,
        };
        push_line(found, priced, line, price, Run::Side { patch, side })?;
    }
    Ok(())
}

/// Puts the remedies by the edges of a line behind the others.
#[tactic(auto, using(crate::proofs::TightEdges::line_some))]
fn push_line(
    found: &mut Vec<Remedy>,
    priced: &Priced,
    line: Line,
    price: i128,
    run: Run,
) -> Result<(), AllocError>
    requires line { IsLine (gluing_in priced.now.keyed.numbered) (lengths_by priced.now.keyed.numbered) line }
    ensures { OnOk result (AddsRemedies found.old.items found.new.items (IsByLine priced.now line price run)) }
{
    let last = size_at(&priced.keyed.numbered, line.patch, side_along(line.upright)) - 1;
    let first = key_at(&priced.keyed.numbered, line, 0);
    let end = key_at(&priced.keyed.numbered, line, last);
    push_remedy(
        found,
        priced,
        Remedy {
            key: first,
            price,
            run,
        },
    )?;
    push_remedy(
        found,
        priced,
        Remedy {
            key: end,
            price,
            run,
        },
    )?;
    Ok(())
}

/// Puts a remedy behind the others where its key is that of a doubled pair.
fn push_remedy(found: &mut Vec<Remedy>, priced: &Priced, remedy: Remedy) -> Result<(), AllocError>
    ensures { OnOk result (AddsRemedies found.old.items found.new.items (λ way.
        (way ≡ remedy) × IsRepeat priced.now.keyed.keys.now remedy.key)) }
{
    if !is_repeat(&priced.keyed, remedy.key) {
        return Ok(());
    }
    found.push(remedy)?;
    Ok(())
}

/// Whether some arc in use is short.
fn is_some_short(priced: &Priced, uses: &[SideArc]) -> bool
    requires { All (λ (used : Used). used.arc < length priced.now.keyed.numbered.t.now.arcs.items) uses.now }
    ensures { IsTrue result ↔ IsSomeShort (lengths_by priced.now.keyed.numbered) uses.now }
{
    for used in uses {
        if is_short_arc(priced, used.arc as usize) {
            return true;
        }
    }
    false
}

/// What one edge more on each short arc in use costs.
fn price_along(priced: &Priced, uses: &[SideArc]) -> i128
    requires uses { All (λ (used : Used). used.arc < length priced.now.keyed.numbered.t.now.arcs.items) uses.now }
    ensures { result ≡ price_of_uses (lengths_by priced.now.keyed.numbered) priced.now.prices.now uses.now }
{
    let mut price = 0;
    for used in uses {
        price += i128::from(short_price(priced, used.arc as usize));
    }
    price
}

/// What one edge more on an arc costs, where it is short.
fn short_price(priced: &Priced, arc: usize) -> i64
    requires arc { arc < length priced.now.keyed.numbered.t.now.arcs.items }
    ensures { result ≡ price_if_short (lengths_by priced.now.keyed.numbered) priced.now.prices.now arc }
{
    if is_short_arc(priced, arc) {
        priced.prices[arc]
    } else {
        0
    }
}

/// Whether an arc is short.
fn is_short_arc(priced: &Priced, arc: usize) -> bool
    requires { arc < length priced.now.keyed.numbered.t.now.arcs.items }
    ensures { IsTrue result ↔ (lengths_by priced.now.keyed.numbered arc < MAX_FLOOR) }
{
    is_short(u64::from(priced.keyed.numbered.tables.lengths[arc]))
}
