//! Where the points of new meshes lie whose arcs have shares for their old edges, on meshes of one patch.

use crate::layouts::read_cut;
use crate::lengths::are_lengths;
use def_remesh::{DartShares, MAX_SHARE, StitchFail};
use qm_io::{MemSource, Source};
use qm_place::Near;
use qm_stages::{Regridded, plan_over};
use std::alloc::{AllocError, Global};
use std::test::Fail;

/// Three quads in a row. The arcs are the south side, of the darts 0, 4 and 8, the north one, of 10, 6 and 2, the west
/// one and the east one.
const STRIP: &[u8] =
    b"v 0 0 0\nv 1 0 0\nv 2 0 0\nv 3 0 0\nv 0 1 0\nv 1 1 0\nv 2 1 0\nv 3 1 0\nf 1 2 6 5\nf 2 3 7 6\nf 3 4 8 7\n";

/// Three rings of three quads. The arcs are the lowest rim, the seam that leads down from the highest one, of the darts
/// 27, 15 and 3, and the highest rim. The patch has the seam as its west side, and against its direction as its east
/// side.
const RINGS: &[u8] = b"\
    v 0 0 0\nv 6 0 0\nv 0 6 0\nv 0 0 1\nv 6 0 1\nv 0 6 1\nv 0 0 2\nv 6 0 2\nv 0 6 2\nv 0 0 3\nv 6 0 3\nv 0 6 3\n\
    f 1 2 5 4\nf 2 3 6 5\nf 3 1 4 6\nf 4 5 8 7\nf 5 6 9 8\nf 6 4 7 9\nf 7 8 11 10\nf 8 9 12 11\nf 9 7 10 12\n";

/// Meshes, the lengths of their arcs and the shares of their first darts, and the places of the new points in
/// millionths.
const SPACED: [(&[u8], &[u64], &[u64], &str); 4] = [
    // The half of the shares of the south side is that of its first edge and a third of that of the second.
    (
        STRIP,
        &[2, 2, 1, 1],
        &[1000, 0, 1000, 0, 3000, 0, 1000, 0, 0],
        "0 0 0, 3000000 0 0, 0 1000000 0, 3000000 1000000 0, 1333333 0 0, 1500000 1000000 0",
    ),
    // No point lies in its last edge, which has no share.
    (
        STRIP,
        &[4, 4, 1, 1],
        &[1000, 0, 1000, 0, 3000, 0, 1000, 0, 0],
        "0 0 0, 3000000 0 0, 0 1000000 0, 3000000 1000000 0, 1000000 0 0, 1333333 0 0, 1666667 0 0, \
        2250000 1000000 0, 1500000 1000000 0, 750000 1000000 0",
    ),
    // Edges without any share count alike.
    (
        STRIP,
        &[2, 2, 1, 1],
        &[0, 0, 0, 0, 0, 0, 0, 0, 0, 0, 0, 0],
        "0 0 0, 3000000 0 0, 0 1000000 0, 3000000 1000000 0, 1500000 0 0, 1500000 1000000 0",
    ),
    // Both sides meet the seam at the same height, at a third of its second edge from below.
    (
        RINGS,
        &[3, 2, 3],
        &[
            0, 0, 0, 1000, 0, 0, 0, 0, 0, 0, 0, 0, 0, 0, 0, 3000, 0, 0, 0, 0, 0, 0, 0, 0, 0, 0,
            1000, 0,
        ],
        "0 0 0, 0 0 3000000, 6000000 0 0, 0 6000000 0, 0 0 1333333, 0 6000000 3000000, 6000000 0 3000000, \
        6000000 0 1333333, 0 6000000 1333333",
    ),
];

#[test]
fn points_stand_at_equal_parts_of_shares(rt: HostRuntime) -> Result<(), Fail> {
    for (text, lengths, shares, want) in SPACED {
        let mut input = MemSource::new(
            Vec::from_slice(rt.alloc(), text)?,
            4096,
            Vec::new(rt.alloc()),
        );
        let found = places_text(rt.alloc(), &mut input, lengths, shares)?;
        assert_eq!(rt; found.as_deref(), Some(want));
    }
    Ok(())
}

/// The places of the points that the mesh of a source has at these lengths, spaced by these shares; none where there is
/// no mesh, where these are no lengths of its layout, or where they give no new mesh.
fn places_text<S: Source>(
    alloc: Global,
    input: &mut S,
    lengths: &[u64],
    shares: &[u64],
) -> Result<Option<String>, AllocError> {
    let Some(cut) = read_cut(alloc, input)? else {
        return Ok(None);
    };
    if !are_lengths(&cut, lengths) {
        return Ok(None);
    }
    match plan_over(alloc, &cut, lengths) {
        Ok(numbering) => {
            let shares = dart_shares(alloc, shares)?;
            let new = Regridded::new(alloc, cut, numbering, lengths, Some(shares))?;
            Ok(Some(told(alloc, &new)?))
        }
        Err(StitchFail::Memory) => Err(AllocError),
        Err(_) => Ok(None),
    }
}

/// Shares of darts, of which none is above the greatest.
fn dart_shares(alloc: Global, given: &[u64]) -> Result<DartShares, AllocError> {
    let mut shares = Vec::with_capacity(alloc, given.len())?;
    for share in given {
        shares.push((*share).min(MAX_SHARE - 1))?;
    }
    Ok(DartShares { shares })
}

/// The place of each point.
fn told(alloc: Global, new: &Regridded) -> Result<String, AllocError> {
    let mut text = String::new(alloc);
    let mut near = Near::new();
    for v in 0..new.vertices() {
        let [x, y, z] = new.place_near(v, &mut near);
        if v > 0 {
            text.push_str(", ")?;
        }
        text.push_str(&format!(in alloc; "{} {} {}", x.n, y.n, z.n)?)?;
    }
    Ok(text)
}
