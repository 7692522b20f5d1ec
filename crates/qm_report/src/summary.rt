//! The line that sums up a benchmark.

ghost use Rattle.std.specs.Prelude.{◌≡◌, IfOk};
ghost use Rattle.def_report.specs.BenchLine.{bench_line};

use crate::Memory;
use crate::lines::{push_count, push_named};
use def_io::LINE_FEED;
use def_report::Counts;
use std::alloc::Global;

/// The line of the generated mesh of this size, whose counts these are.
pub fn summary_text(alloc: Global, size: u32, counts: &Counts) -> Result<Vec<u8>, Memory>
    ensures { IfOk result (λ text. text.items ≡ bench_line size counts.now) }
{
    let mut text = Vec::new(alloc);
    push_count(&mut text, b"bench ", size)?;
    push_count(&mut text, b" vertices ", counts.vertices)?;
    push_count(&mut text, b" edges ", counts.edges)?;
    push_count(&mut text, b" faces ", counts.faces)?;
    push_count(&mut text, b" riders ", counts.riders)?;
    push_count(&mut text, b" patches ", counts.patches)?;
    push_count(&mut text, b" arcs ", counts.arcs)?;
    push_named(&mut text, b" deviation ", counts.deviation)?;
    text.push(LINE_FEED)?;
    Ok(text)
}
