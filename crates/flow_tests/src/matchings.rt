//! A matching that is least because of a set.

use crate::graphs::{are_edges, triangles};
use qm_dual::SmallGraph;
use qm_match::{best, is_perfect};
use std::test::Fail;

#[test]
fn two_triangles(rt: HostRuntime) -> Result<(), Fail> {
    let g = triangles(rt.alloc())?;
    let known = [1, 4, 6];
    assert!(rt; g.n <= 12 && are_edges(g.n, &g.edges) && g.edges.len() < 100);
    let g = SmallGraph { whole: &g };
    assert!(rt; is_perfect(rt.alloc(), &g, &known)?);
    let (edges, dual) = best(rt.alloc(), &g, &known)?;
    assert!(rt; edges.as_slice() == known.as_slice());
    assert!(rt; dual.z.iter().any(|z| *z > 0));
    Ok(())
}
