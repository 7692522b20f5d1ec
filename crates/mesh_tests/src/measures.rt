//! Networks of meshes whose new edges are to have a given length.

use crate::layouts::read_cut;
use def_flow::Net;
use def_text::Micro;
use qm_io::{MemSource, Source};
use qm_metric::{MetricFail, edge_fit, net_for, old_start};
use std::alloc::{AllocError, Global};
use std::test::Fail;

/// A quad with edges of 3, 4, 5 and 8.
const QUAD: &[u8] = b"v 0 0 0\nv 3 0 0\nv 3 4 0\nv 0 8 0\nf 1 2 3 4\n";

/// Quads with edges of 1, and of a little more, and a row of quads.
const UNIT: &[u8] = b"v 0 0 0\nv 1 0 0\nv 1 1 0\nv 0 1 0\nf 1 2 3 4\n";

const WIDER: &[u8] = b"v 0 0 0\nv 1.000001 0 0\nv 1.000001 1 0\nv 0 1 0\nf 1 2 3 4\n";

const ROW: &[u8] =
    b"v 0 0 0\nv 1 0 0\nv 2 0 0\nv 4 0 0\nv 0 1 0\nv 1 1 0\nv 2 1 0\nv 4 1 0\nf 1 2 6 5\nf 2 3 7 6\nf 3 4 8 7\n";

/// Texts with the length of an edge in millionths and a floor, and what is told of their networks.
const TARGETS: [(&[u8], i64, u32, &str); 9] = [
    (
        QUAD,
        1_000_000,
        1,
        "1/1000, at least 1 1 1 1: 3000 4000 5000 8000, from 1 1 1 1",
    ),
    (
        QUAD,
        3_000_000,
        2,
        "1/1000, at least 2 2 2 2: 1000 1333 1666 2666, from 2 2 2 2",
    ),
    (
        QUAD,
        8_000_000_001,
        3,
        "1/1000, at least 3 3 3 3: 0 0 0 0, from 3 3 3 3",
    ),
    (
        QUAD,
        999_999_999_999_999,
        1,
        "1/1000, at least 1 1 1 1: 0 0 0 0, from 1 1 1 1",
    ),
    (
        ROW,
        500_000,
        2,
        "1/1000, at least 2 2 2 2: 8000 8000 2000 2000, from 6 6 2 2",
    ),
    (
        UNIT,
        1,
        1,
        "1/1000, at least 1 1 1 1: 1000000000 1000000000 1000000000 1000000000, from 1 1 1 1",
    ),
    (WIDER, 1, 1, "far 4000002000"),
    (QUAD, 1, 1, "far 20000000000"),
    (b"", 1, 1, "1/1000, at least:, from"),
];

#[test]
fn targets_of_edge_lengths(rt: HostRuntime) -> Result<(), Fail> {
    for (text, edge, floor, want) in TARGETS {
        let mut input = MemSource::new(
            Vec::from_slice(rt.alloc(), text)?,
            4096,
            Vec::new(rt.alloc()),
        );
        let found = network_text(rt.alloc(), &mut input, edge, floor)?;
        assert_eq!(rt; found.as_deref(), Some(want));
    }
    Ok(())
}

/// The network of a source's mesh for edges of so many millionths, and the list from which its solver may start; none
/// where there is no mesh.
fn network_text<S: Source>(
    alloc: Global,
    input: &mut S,
    edge: i64,
    floor: u32,
) -> Result<Option<String>, AllocError> {
    let Some(cut) = read_cut(alloc, input)? else {
        return Ok(None);
    };
    if !(1..=999_999_999_999_999).contains(&edge) || !(1..=3).contains(&floor) {
        return Ok(None);
    }
    match net_for(alloc, &cut, &edge_fit(Micro { n: edge }, floor), &[]) {
        Ok(net) => {
            let start = old_start(alloc, cut.layout(), floor)?;
            Ok(Some(told(alloc, &net, &start)?))
        }
        Err(MetricFail::Tangled { count }) => Ok(Some(format!(in alloc; "tangled {count}")?)),
        Err(MetricFail::Far { sum }) => Ok(Some(format!(in alloc; "far {sum}")?)),
        Err(MetricFail::Memory) => Err(AllocError),
    }
}

/// The scale and the floors, the wishes and a start.
fn told(alloc: Global, net: &Net, start: &[u64]) -> Result<String, AllocError> {
    let mut text = format!(in alloc; "{}/{}, at least", net.p, net.q)?;
    for arc in &net.arcs {
        text.push_str(&format!(in alloc; " {}", arc.floor)?)?;
    }
    text.push_str(":")?;
    for arc in &net.arcs {
        text.push_str(&format!(in alloc; " {}", arc.old)?)?;
    }
    text.push_str(", from")?;
    for length in start {
        text.push_str(&format!(in alloc; " {length}")?)?;
    }
    Ok(text)
}
