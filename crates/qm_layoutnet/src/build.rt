//! The network of a layout, and its tangle number.

ghost use Rattle.std.specs.Prelude.{◌≡◌, ◌<◌, ◌≤◌, ◌^◌, ℕ, [], length, slice_index_or, IfOk, IfErr};
ghost use Rattle.std.specs.List.{All};
ghost use Rattle.def_flow.specs.Admissible.{IsEven};
ghost use Rattle.def_flow.specs.Network.{network, tangle_number, IsWithinBounds};
ghost use Rattle.def_layout.specs.Arcs.{long_at};
ghost use Rattle.def_layout.specs.Layouts.{gluing_of, layout_of, side_at};
ghost use Rattle.def_layout.specs.Surfaces.{IsSurface};
ghost use Rattle.def_layout.specs.Gluings.{Way};
ghost use Rattle.def_flow.specs.declared.net.Settings.{Settings as Asked};
ghost use Rattle.def_layout.specs.declared.tmesh.SideArc.{SideArc};
ghost use Rattle.def_layoutnet.specs.LayoutNet.{AreSettings, HasNoNet, IsNetOf};
ghost use Rattle.def_layoutnet.specs.MeshLayouts.{IsSomeLayout};
ghost use Rattle.qm_layoutnet.specs.Ends.{with_four, AreEnds, PatchesBelow};

use crate::arcs::open_arcs;
use crate::ends::put_ends;
use def_flow::{Arc, End, MAX_TANGLE, Net, Settings};
use def_layout::TMesh;
use def_layoutnet::NetFail;
use qm_net::{BoundedNet, tangle_of};
use std::alloc::{AllocError, Global};

/// The network of the layout of a mesh near its old lengths. Linear in the arcs and in the sides of patches.
pub fn net_of(alloc: Global, t: &TMesh, set: &Settings) -> Result<Net, NetFail>
    requires layout { IsSomeLayout (layout_of t.now) }
    requires settings { AreSettings set.now }
    ensures net { IfOk result (λ net.
        IsNetOf (gluing_of (layout_of t.now)) (long_at (layout_of t.now).arcs) (long_at (layout_of t.now).arcs) set.now
        (λ a. set.now.floor)
        (network net)) }
    ensures even { IfOk result (λ net. IsEven (network net)) }
    ensures bounds { IfOk result (λ net. IsWithinBounds (network net)) }
    ensures small { IfOk result (λ net. tangle_number (network net) ≤ MAX_TANGLE) }
    ensures tangled { IfErr result
        (HasNoNet (gluing_of (layout_of t.now)) (long_at (layout_of t.now).arcs) (long_at (layout_of t.now).arcs)
        set.now) }
{
    let net = any_net_of(alloc, t, set)?;
    let tangle = tangle_of(alloc, &BoundedNet { whole: &net })?;
    if tangle > u128::from(MAX_TANGLE) {
        return Err(NetFail::Tangled {
            count: tangle as u64,
        });
    }
    Ok(net)
}

/// The network, whatever its tangle number is.
fn any_net_of(alloc: Global, t: &TMesh, set: &Settings) -> Result<Net, AllocError>
    requires layout { IsSomeLayout (layout_of t.now) }
    requires settings { AreSettings set.now }
    ensures net { IfOk result (λ net.
        IsNetOf (gluing_of (layout_of t.now)) (long_at (layout_of t.now).arcs) (long_at (layout_of t.now).arcs) set.now
        (λ a. set.now.floor) (network net)) }
    ensures even { IfOk result (λ net. IsEven (network net)) }
    ensures bounds { IfOk result (λ net. IsWithinBounds (network net)) }
    ensures small { IfOk result (λ net. tangle_number (network net) < 2 ^ 64) }
{
    let mut arcs = open_arcs(alloc, &t.arcs, set)?;
    put_all_ends(&mut arcs, t);
    Ok(Net {
        nodes: 2 * t.patches.len() as u32,
        arcs,
        p: set.p,
        q: set.q,
    })
}

/// Puts in the ends of all sides.
fn put_all_ends(arcs: &mut [Arc], t: &TMesh)
    requires laid { IsSurface (gluing_of (layout_of t.now)) }
    requires sided { length t.now.sides.items ≡ length t.now.patches.items }
    requires few { length t.now.patches.items ≤ 2 ^ 23 }
    requires four { (p : ℕ) → p < length t.now.patches.items
        → length (slice_index_or (layout_of t.now).sides p []) ≡ 4 }
    requires long { length arcs.old ≡ length t.now.arcs.items }
    ensures { (set : Asked)
        → AreEnds (gluing_of (layout_of t.now)) (long_at (layout_of t.now).arcs) set (PatchesBelow 0) arcs.old
        → AreEnds (gluing_of (layout_of t.now)) (long_at (layout_of t.now).arcs) set
        (PatchesBelow (length t.now.patches.items)) arcs.new }
{
    for p in 0..t.sides.len() {
        put_four(arcs, t, p as u32);
    }
}

/// Puts in the ends of the sides of a patch: south and east count as plus, north and west as minus.
fn put_four(arcs: &mut [Arc], t: &TMesh, p: u32)
    requires low { p < length t.now.sides.items }
    requires few { p < 2 ^ 23 }
    requires four { length (slice_index_or (layout_of t.now).sides p []) ≡ 4 }
    requires uses { (side : Way)
        → All (λ (used : SideArc). used.arc < length arcs.old) (side_at (layout_of t.now) p side) }
    ensures { arcs.new ≡ with_four p (side_at (layout_of t.now) p) arcs.old }
{
    let four = &t.sides[p as usize];
    put_ends(arcs, &four[0].arcs, end_at(2 * p, true));
    put_ends(arcs, &four[1].arcs, end_at(2 * p + 1, true));
    put_ends(arcs, &four[2].arcs, end_at(2 * p, false));
    put_ends(arcs, &four[3].arcs, end_at(2 * p + 1, false));
}

/// An end at a node, on its plus or on its minus side.
fn end_at(node: u32, plus: bool) -> End
    ensures { result ≡ record { node = node; plus = plus } }
{
    End { node, plus }
}
