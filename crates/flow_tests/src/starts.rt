//! Starts of small networks: each list fits, and how far it is from what is wanted.

use crate::samples::{FIVE_SHAPES, FLAPS, TREBLED};
use qm_net::{BoundedNet, admissible, are_lengths, deviation, is_within_bounds};
use qm_nettext::read_net;
use qm_warmstart::near_start;
use std::test::Fail;

/// The least deviations are 0, 20 and 11.
#[test]
fn starts_that_fit(rt: HostRuntime) -> Result<(), Fail> {
    for (text, far) in [(TREBLED, 0), (FIVE_SHAPES, 20), (FLAPS, 11)] {
        let net = read_net(rt.alloc(), text)?;
        assert!(rt; is_within_bounds(&net));
        let found = near_start(rt.alloc(), &BoundedNet { whole: &net })?;
        let Some(start) = found else {
            panic!(rt; "no start");
        };
        assert_eq!(rt; start.prices.len(), net.nodes as usize);
        assert!(rt; are_lengths(&net, &start.lengths));
        assert!(rt; admissible(&net, &start.lengths));
        assert_eq!(rt; deviation(&net, &start.lengths), far);
    }
    Ok(())
}

/// A chain of three arcs between two boundaries: all have the length that is wanted in the middle, and the nodes have
/// prices at which no arc would rather be longer or shorter.
const CHAIN: &str = "net nodes 2 arcs 3 floor 1 scale 1/1
arc 2 1 0 + rim
arc 5 1 0 - 1 +
arc 9 1 1 - rim";

/// The same as a ring at one node.
const RING: &str = "net nodes 3 arcs 3 floor 1 scale 1/1
arc 2 1 0 + 1 -
arc 5 1 1 + 2 -
arc 9 1 2 + 0 -";

#[test]
fn chains_have_one_length(rt: HostRuntime) -> Result<(), Fail> {
    for (text, prices) in [(CHAIN, [2, 2].as_slice()), (RING, [0, -2, -2].as_slice())] {
        let net = read_net(rt.alloc(), text)?;
        assert!(rt; is_within_bounds(&net));
        let Some(start) = near_start(rt.alloc(), &BoundedNet { whole: &net })? else {
            panic!(rt; "no start");
        };
        assert!(rt; start.lengths.as_slice() == [5, 5, 5].as_slice());
        assert!(rt; start.prices.as_slice() == prices, "{:?}", start.prices);
    }
    Ok(())
}
