//! Duals of small graphs, each with its verdict.

ghost use Rattle.std.specs.Prelude.{◌≡◌, ◌^◌, nat_lt, unsigned_abs};
ghost use Rattle.std.specs.List.{list_all};

use crate::graphs::{are_edges, triangles};
use def_matching::{Dual, Verdict};
use qm_dual::{SmallGraph, dual_ok};
use std::alloc::Global;
use std::process::Abort;
use std::test::Fail;

/// Whether each number is below 10^18 in absolute value.
pub(crate) fn are_small(numbers: &[i64]) -> bool
    ensures { result ≡ list_all (λ x. nat_lt (unsigned_abs x) (10 ^ 18)) numbers.now }
{
    numbers
        .iter()
        .all(|x| x.unsigned_abs() < 1_000_000_000_000_000_000)
}

/// The verdict on a dual of two triangles with a dear edge between them.
fn check(
    rt: &impl Abort,
    alloc: Global,
    y: &[i64],
    z: &[i64],
    up: &[u32],
) -> Result<Verdict, Fail> {
    let graph = triangles(alloc)?;
    let dual = Dual {
        y: Vec::from_slice(alloc, y)?,
        z: Vec::from_slice(alloc, z)?,
        up: Vec::from_slice(alloc, up)?,
    };
    assert!(rt; graph.n <= 12 && are_edges(graph.n, &graph.edges) && graph.edges.len() < 100);
    assert!(rt; are_small(&dual.y) && are_small(&dual.z) && dual.z.len() < 8);
    Ok(dual_ok(alloc, &SmallGraph { whole: &graph }, &dual)?)
}

/// Numbers of vertices, numbers of sets, the entries of both, and the verdict.
const VERDICTS: [(&[i64], &[i64], &[u32], Verdict); 7] = [
    (
        &[0; 6],
        &[20],
        &[1, 1, 1, 0, 0, 0, 0],
        Verdict::Yes { sum: 20 },
    ),
    (
        &[0; 6],
        &[20],
        &[1, 1, 0, 0, 0, 0, 0],
        Verdict::Even { set: 0, size: 2 },
    ),
    (
        &[0; 6],
        &[-1],
        &[1, 1, 1, 0, 0, 0, 0],
        Verdict::Negative { set: 0 },
    ),
    (
        &[0; 6],
        &[20],
        &[1, 1, 1, 2, 0, 0, 0],
        Verdict::Shape { index: 3 },
    ),
    (
        &[0, 0, 0, 0, 0, -5],
        &[15, 5],
        &[1, 1, 1, 2, 2, 0, 2, 0],
        Verdict::Yes { sum: 15 },
    ),
    (
        &[0, 0, 0, 0, 0, -5],
        &[21, 5],
        &[1, 1, 1, 2, 2, 0, 2, 0],
        Verdict::Short {
            edge: 6,
            load: 21,
            cost: 20,
        },
    ),
    (
        &[-1, 1, 1, 0, 0, 0],
        &[],
        &[0; 6],
        Verdict::Short {
            edge: 1,
            load: 2,
            cost: 0,
        },
    ),
];

#[test]
fn verdicts_on_two_triangles(rt: HostRuntime) -> Result<(), Fail> {
    for (y, z, up, want) in VERDICTS {
        assert_eq!(rt; check(&rt, rt.alloc(), y, z, up)?, want, "at {z:?} {up:?}");
    }
    Ok(())
}
