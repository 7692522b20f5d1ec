//! The network that is measured.

ghost use Rattle.std.specs.Prelude.{◌<◌};

use def_flow::{Arc, End, Net};
use std::alloc::{AllocError, Global};

const PAIRS: u32 = 5000;

/// 5,000 nodes and 10,000 arcs, in pairs that balance each other: with unlike signs, with like signs, or with one end.
pub(crate) fn network(alloc: Global) -> Result<Net, AllocError> {
    let mut arcs = Vec::new(alloc);
    for j in 0..PAIRS {
        for second in [false, true] {
            arcs.push(arc(j, second))?;
        }
    }
    Ok(Net {
        nodes: PAIRS,
        arcs,
        p: 1,
        q: 1,
    })
}

fn arc(j: u32, second: bool) -> Arc
    requires { j < 5000 }
{
    let far = (j * 7 + 1) % PAIRS;
    let right = match j % 3 {
        0 => Some(End {
            node: far,
            plus: second,
        }),
        1 => Some(End {
            node: far,
            plus: !second,
        }),
        _ => None,
    };
    Arc {
        left: End {
            node: j,
            plus: !second,
        },
        right,
        old: 1 + j * 13 % 9,
        weight: 1 + j % 7,
        floor: 1,
    }
}

/// A list with equal lengths for both arcs of a pair.
pub(crate) fn lengths(alloc: Global) -> Result<Vec<u64>, AllocError> {
    let mut x = Vec::new(alloc);
    for j in 0..PAIRS {
        let length = u64::from(1 + j % 6);
        x.push(length)?;
        x.push(length)?;
    }
    Ok(x)
}
