//! Certificates of small networks, each with its verdict.

ghost use Rattle.std.specs.Prelude.{◌≡◌, ◌^◌, nat_le};
ghost use Rattle.std.specs.List.{list_all};

use crate::duals::are_small;
use crate::samples::{FIVE_SHAPES, QUAD};
use def_flow::{Cert, CertVerdict, MAX_TANGLE};
use def_matching::{Dual, Verdict};
use qm_cert::accepts;
use qm_net::{BoundedNet, is_within_bounds, tangle_of};
use qm_nettext::read_net;
use std::alloc::Global;
use std::process::Abort;
use std::test::Fail;

/// Whether no length is above 10^12.
fn are_short(x: &[u64]) -> bool
    ensures { result ≡ list_all (λ l. nat_le l (10 ^ 12)) x.now }
{
    x.iter().all(|length| *length <= 1_000_000_000_000)
}

/// A list of lengths with a dual: numbers of vertices, numbers of sets, and the entries of both.
#[derive(Clone, Copy, Debug, PartialEq, Eq)]
struct Sheet<'a> {
    x: &'a [u64],
    y: &'a [i64],
    z: &'a [i64],
    up: &'a [u32],
}

/// The verdict on a sheet over the network of a text.
fn check(rt: &impl Abort, alloc: Global, text: &str, sheet: Sheet) -> Result<CertVerdict, Fail> {
    let net = read_net(alloc, text)?;
    let dual = Dual {
        y: Vec::from_slice(alloc, sheet.y)?,
        z: Vec::from_slice(alloc, sheet.z)?,
        up: Vec::from_slice(alloc, sheet.up)?,
    };
    let cert = Cert {
        x: Vec::from_slice(alloc, sheet.x)?,
        dual,
    };
    assert!(rt; is_within_bounds(&net));
    let tangle = tangle_of(alloc, &BoundedNet { whole: &net })?;
    assert!(rt; tangle <= u128::from(MAX_TANGLE));
    assert!(rt; are_short(&cert.x) && cert.x.len() < 64);
    assert!(rt; are_small(&cert.dual.y) && are_small(&cert.dual.z) && cert.dual.z.len() < 64);
    Ok(accepts(alloc, &net, &cert)?)
}

/// Numbers that are 0 but for the first and the last.
fn nearly_zero(first: i64, last: i64) -> [i64; 34] {
    let mut y = [0; 34];
    y[0] = first;
    y[33] = last;
    y
}

/// A list of lengths, the first and the last number of a dual that is 0 else, and the verdict.
const QUAD_VERDICTS: [(&[u64], i64, i64, CertVerdict); 6] = [
    (&[1, 1, 1, 1], 0, 0, CertVerdict::Yes { deviation: 0 }),
    (&[1, 1, 1], 0, 0, CertVerdict::Count { arcs: 4, given: 3 }),
    (
        &[0, 1, 1, 1],
        0,
        0,
        CertVerdict::Below { arc: 0, length: 0 },
    ),
    (
        &[2, 1, 1, 1],
        0,
        0,
        CertVerdict::Unequal {
            node: 0,
            plus: 2,
            minus: 1,
        },
    ),
    (
        &[1, 1, 1, 1],
        1,
        0,
        CertVerdict::Dual {
            verdict: Verdict::Short {
                edge: 12,
                load: 1,
                cost: 0,
            },
        },
    ),
    (
        &[1, 1, 1, 1],
        0,
        -1,
        CertVerdict::Sums { dual: -1, cost: 0 },
    ),
];

#[test]
fn verdicts_on_one_quad(rt: HostRuntime) -> Result<(), Fail> {
    for (x, first, last, want) in QUAD_VERDICTS {
        let sheet = Sheet {
            x,
            y: &nearly_zero(first, last),
            z: &[],
            up: &[0; 34],
        };
        let verdict = check(&rt, rt.alloc(), QUAD, sheet)?;
        assert_eq!(rt; verdict, want, "at {x:?}, {first}, {last}");
    }
    Ok(())
}

/// A dual with nested sets, by another program.
const FIVE_SHAPES_Y: [i64; 56] = [
    0, 0, 0, 0, 1, 1, 1, 1, 1, 1, 1, 6, 6, 6, 6, 6, 6, 6, 6, -12, -1, -1, -1, 1, -1, 3, -3, 3, -3,
    -9, -9, -6, -6, -6, -6, 0, 0, 0, 0, -13, -1, -1, -6, 6, 6, -6, -6, 0, -6, 6, -6, 6, -6, 0, 0,
    -6,
];

const FIVE_SHAPES_Z: [i64; 3] = [6, 2, 3];

const FIVE_SHAPES_UP: [u32; 59] = [
    0, 0, 0, 0, 2, 2, 2, 2, 2, 2, 2, 0, 0, 0, 0, 0, 0, 0, 0, 0, 2, 2, 2, 2, 2, 3, 3, 3, 3, 0, 0, 0,
    0, 0, 0, 0, 0, 0, 0, 2, 2, 2, 0, 0, 0, 0, 0, 1, 0, 0, 0, 0, 0, 1, 1, 0, 0, 3, 0,
];

/// The certificate of a least list over arcs of all shapes.
#[test]
fn nested_sets_are_accepted(rt: HostRuntime) -> Result<(), Fail> {
    let sheet = Sheet {
        x: &[4, 2, 2, 5, 2, 1, 1],
        y: &FIVE_SHAPES_Y,
        z: &FIVE_SHAPES_Z,
        up: &FIVE_SHAPES_UP,
    };
    let verdict = check(&rt, rt.alloc(), FIVE_SHAPES, sheet)?;
    assert_eq!(rt; verdict, CertVerdict::Yes { deviation: 20 });
    Ok(())
}
