//! The same network with other least lengths.

ghost use Rattle.std.specs.Prelude.{◌≡◌, ◌<◌, length, map};
ghost use Rattle.std.specs.List.{All};
ghost use Rattle.def_certtext.specs.declared.certs.Rise.{Rise as AnyRise};
ghost use Rattle.def_flow.specs.Network.{network};
ghost use Rattle.def_flow.specs.declared.net.Arc.{Arc as AnyArc};
ghost use Rattle.def_remesh.specs.Rises.{risen_floors};
ghost use Rattle.def_layoutnet.specs.Floors.{at_floor, floor_of, HasFloors};
ghost use Rattle.qm_layoutnet.specs.Floors.{AreArcsAt};

use def_certtext::Rise;
use def_flow::{Arc, Net};

/// The network with another floor: the least length of each arc. Linear.
pub fn with_floor(net: Net, floor: u32) -> Net
    ensures { network result ≡ record (network net) {
      arcs = map (λ (arc : AnyArc). record arc { floor = floor }) net.arcs.items;
    } }
{
    let mut raised = net;
    put_floor(&mut raised.arcs, floor);
    raised
}

/// Gives all arcs this floor.
fn put_floor(arcs: &mut [Arc], floor: u32)
    ensures { arcs.new ≡ map (at_floor floor) arcs.old }
{
    for arc in arcs.iter_mut() {
        arc.floor = floor;
    }
}

/// The network with floors that rose: where an arc stands twice the first rise counts. Linear in the rises.
pub fn with_rises(net: Net, rises: &[Rise]) -> Net
    requires { All (λ (rise : AnyRise). rise.arc < length net.arcs.items) rises.now }
    ensures { HasFloors (network net) (risen_floors rises.now (floor_of net.arcs.items)) (network result) }
{
    let mut raised = net;
    put_rises(&mut raised.arcs, rises);
    raised
}

/// Gives arcs the floors to which they rise.
fn put_rises(arcs: &mut [Arc], rises: &[Rise])
    requires { All (λ (rise : AnyRise). rise.arc < length arcs.old) rises.now }
    ensures { AreArcsAt (risen_floors rises.now (floor_of arcs.old)) arcs.old arcs.new }
{
    let mut k = rises.len();
    while k > 0 {
        k -= 1;
        let rise = rises[k];
        arcs[rise.arc as usize].floor = rise.floor;
    }
}
