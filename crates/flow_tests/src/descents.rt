//! Networks whose least deviations are known.

use crate::samples::{CUBE, FLAPS, QUAD, TREBLED};
use def_flow::{MAX_TANGLE, Net};
use qm_net::{BoundedNet, deviation, is_within_bounds, tangle_of};
use qm_nettext::read_net;
use qm_solve::{Memory, is_start, solve_from, start_of};
use std::alloc::Global;
use std::test::Fail;

/// Two sheets of three by three faces with one rim, at a third of their size.
const PILLOW: &str = "net nodes 4 arcs 4 floor 1 scale 1/3
arc 3 1 0 + 3 -
arc 3 1 1 - 2 +
arc 3 1 1 + 2 -
arc 3 1 0 - 3 +";

/// A cylinder with a step, at a third of its size, with lengths of at least 3.
const CYLINDER: &str = "net nodes 6 arcs 9 floor 3 scale 1/3
arc 3 1 0 + rim
arc 3 1 1 - 3 +
arc 3 1 1 + 3 -
arc 3 1 2 + rim
arc 3 1 0 - 4 +
arc 3 1 2 - rim
arc 3 1 5 - rim
arc 3 1 5 + rim
arc 3 1 4 - rim";

/// A torus of four by four faces, at half its size, with lengths of at least 3.
const TORUS: &str = "net nodes 2 arcs 2 floor 3 scale 1/2
arc 4 1 0 + 0 -
arc 4 1 1 + 1 -";

#[test]
fn known_networks(rt: HostRuntime) -> Result<(), Fail> {
    let table = [
        (QUAD, 0),
        (TREBLED, 0),
        (FLAPS, 11),
        (CUBE, 12),
        (PILLOW, 0),
        (CYLINDER, 54),
        (TORUS, 4),
    ];
    for (text, least) in table {
        let net = read_net(rt.alloc(), text)?;
        assert_eq!(rt; least_of(rt.alloc(), &net)?, Some((least, least)), "{text}");
    }
    Ok(())
}

#[test]
fn floors_of_single_arcs(rt: HostRuntime) -> Result<(), Fail> {
    for (at, floor, least) in [(0, 2, 2), (0, 3, 4), (3, 3, 4)] {
        let mut net = read_net(rt.alloc(), QUAD)?;
        assert_eq!(rt; net.arcs.len(), 4);
        net.arcs[at].floor = floor;
        assert_eq!(rt; least_of(rt.alloc(), &net)?, Some((least, least)), "{at}");
    }
    Ok(())
}

/// The deviations of the lists that are found from a start near what is wanted and from a multiple of the old lengths,
/// if both may be started from.
fn least_of(alloc: Global, net: &Net) -> Result<Option<(i128, i128)>, Memory> {
    if !is_within_bounds(net) {
        return Ok(None);
    }
    let bounded = BoundedNet { whole: net };
    if tangle_of(alloc, &bounded)? > u128::from(MAX_TANGLE) {
        return Ok(None);
    }
    let near = start_of(alloc, &bounded)?.lengths;
    let far = old_multiple(alloc, net)?;
    if !is_start(&bounded, &near) || !is_start(&bounded, &far) {
        return Ok(None);
    }
    let near = solve_from(alloc, net, &near)?;
    let far = solve_from(alloc, net, &far)?;
    Ok(Some((deviation(net, &near.x), deviation(net, &far.x))))
}

/// The old lengths, as often as the scale and the floors ask.
fn old_multiple(alloc: Global, net: &Net) -> Result<Vec<u64>, Memory> {
    let mut times = net.p / net.q.max(1);
    for arc in &net.arcs {
        times = times.max(arc.floor);
    }
    let mut lengths = Vec::new(alloc);
    for arc in &net.arcs {
        lengths.push(u64::from(arc.old).saturating_mul(u64::from(times)))?;
    }
    Ok(lengths)
}
