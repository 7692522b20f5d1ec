//! Floors that rise where lengths double an edge, worked for small meshes.

use crate::layouts::read_cut;
use crate::lengths::are_lengths;
use crate::new_meshes::{CYLINDER, PILLOW, TORUS, mesh_text};
use qm_io::{MemSource, Source};
use qm_stages::{are_needed_over, rises_over};
use qm_stitch::{StitchFail, stitch};
use std::alloc::{AllocError, Global};
use std::test::Fail;

/// More lengths than any of these meshes has arcs.
const MOST: usize = 100;

/// The arcs whose floors rise for the mesh of a source at these lengths and prices, from 1, each with its floor; none
/// where there is no mesh, or where these lengths double no edge.
fn risen_text<S: Source>(
    alloc: Global,
    input: &mut S,
    lengths: &[u64],
    prices: &[i64],
) -> Result<Option<String>, AllocError> {
    let Some(cut) = read_cut(alloc, input)? else {
        return Ok(None);
    };
    if lengths.len() > MOST || prices.len() != lengths.len() || !are_lengths(&cut, lengths) {
        return Ok(None);
    }
    match stitch(alloc, cut.layout(), lengths) {
        Err(StitchFail::Doubled { .. }) => (),
        _ => return Ok(None),
    }
    let rises = rises_over(alloc, &cut, lengths, prices)?;
    if !are_needed_over(alloc, &cut, lengths, &rises)? {
        return Ok(None);
    }
    let mut text = String::new(alloc);
    for rise in &rises {
        let arc = u64::from(rise.arc) + 1;
        let line = format!(in alloc; "{arc} {}\n", rise.floor)?;
        text.push_str(&line)?;
    }
    Ok(Some(text))
}

/// How many vertices a mesh has, its faces, lengths that double an edge, what one edge more on each arc costs, and the
/// floors that rise, as a script found them that lists all edges of the new mesh.
const RISES: [(u32, &str, &[u64], &[i64], &str); 10] = [
    (
        36,
        CYLINDER,
        &[1, 1, 1, 1, 1, 1, 1, 1, 1],
        &[9, 8, 7, 6, 5, 4, 3, 2, 1],
        "4 2\n6 2\n",
    ),
    (
        36,
        CYLINDER,
        &[1, 1, 1, 1, 1, 1, 1, 1, 1],
        &[1, 2, 3, 4, 5, 6, 7, 8, 9],
        "1 2\n5 2\n",
    ),
    (16, TORUS, &[1, 1], &[3, 2], "2 2\n"),
    (16, TORUS, &[1, 1], &[1, -2], "2 2\n"),
    (16, TORUS, &[1, 2], &[9, 1], "1 2\n2 3\n"),
    (16, TORUS, &[2, 2], &[2, 1], "1 3\n2 3\n"),
    (16, TORUS, &[3, 2], &[1, 1], "2 3\n"),
    (20, PILLOW, &[2, 1, 1, 2], &[1, 2, 3, 4], "2 2\n"),
    (20, PILLOW, &[2, 1, 1, 2], &[4, 3, 2, 1], "3 2\n"),
    (20, PILLOW, &[1, 2, 2, 1], &[4, 3, 2, 1], "4 2\n"),
];

#[test]
fn floors_that_rise_at_given_lengths(rt: HostRuntime) -> Result<(), Fail> {
    for (vertices, faces, lengths, prices, want) in RISES {
        let text = mesh_text(rt.alloc(), vertices, faces)?;
        let mut input = MemSource::new(text, 65_536, Vec::new(rt.alloc()));
        let Some(found) = risen_text(rt.alloc(), &mut input, lengths, prices)? else {
            panic!(rt; "nothing rises at {lengths:?}");
        };
        assert!(rt; found.as_str() == want, "at {lengths:?}: {found}");
    }
    Ok(())
}
