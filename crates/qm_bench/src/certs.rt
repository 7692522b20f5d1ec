//! Reading and writing the lines of a certificate, as often as is asked.

ghost use Rattle.std.specs.Prelude.{◌<◌, length};
ghost use Rattle.def_io.specs.Lines.{lines_of};

use def_certtext::{CertFail, Written};
use def_flow::Cert;
use qm_certtext::{Memory, cert_text, last_head, read_written, used_cert};
use qm_io::{Lines, StdSource, read_lines};
use std::alloc::Global;
use std::io;
use std::process::ExitCode;
use thiserror::Error;

/// The most bytes of a text.
const LIMIT: u32 = 1 << 29;

/// What is told of a certificate: its lengths, the numbers of its dual, and the bytes of its lines.
#[derive(Clone, Copy, Debug, PartialEq, Eq)]
struct Counts {
    lengths: usize,
    numbers: usize,
    bytes: usize,
}

/// Why nothing is told.
#[derive(Clone, Copy, Debug, PartialEq, Eq, Error)]
enum Fail {
    #[error("no certificate")]
    Text,
    #[error("out of memory")]
    Memory,
}

impl From<CertFail> for Fail {
    fn from(fail: CertFail) -> Fail {
        match fail {
            CertFail::Memory => Fail::Memory,
            _ => Fail::Text,
        }
    }
}

impl From<Memory> for Fail {
    fn from(_: Memory) -> Fail {
        Fail::Memory
    }
}

/// Reads the text of a remesh, and tells what its certificate has once it was read or written so often. The status is 2
/// where the input has no head line, or lines of a certificate that are none.
pub(crate) fn tell_certificate(rt: &HostRuntime, writes: bool, times: u32) -> io::Result<ExitCode> {
    let mut input = StdSource::new(rt.reader());
    let Ok(lines) = read_lines(rt.alloc(), &mut input, LIMIT) else {
        return Ok(ExitCode::from(12));
    };
    let Some(first) = last_head(&lines) else {
        return Ok(ExitCode::from(2));
    };
    let text = HeadedText {
        lines: &lines,
        first,
    };
    let told = if writes {
        write_often(rt.alloc(), &text, times)
    } else {
        read_often(rt.alloc(), &text, times)
    };
    match told {
        Ok(
            Counts {
                lengths,
                numbers,
                bytes,
            },
        ) => {
            println!(rt; "lengths {lengths} numbers {numbers} bytes {bytes}")?;
            Ok(ExitCode::SUCCESS)
        }
        Err(Fail::Text) => Ok(ExitCode::from(2)),
        Err(Fail::Memory) => Ok(ExitCode::from(14)),
    }
}

/// The lines of a text, and which of them is the head line.
#[derive(Clone, Copy)]
struct HeadedText<'a> {
    lines: &'a Lines,
    first: u32,
    ghost there: { first < length (lines_of lines.now) },
}

/// Reads the certificate so often, and writes it once.
fn read_often(alloc: Global, text: &HeadedText, times: u32) -> Result<Counts, Fail> {
    let mut written = read_written(alloc, text.lines, text.first)?;
    for _ in 1..times {
        written = read_written(alloc, text.lines, text.first)?;
    }
    counts_of(alloc, &written, 1)
}

/// Reads the certificate once, and writes it so often.
fn write_often(alloc: Global, text: &HeadedText, times: u32) -> Result<Counts, Fail> {
    let written = read_written(alloc, text.lines, text.first)?;
    counts_of(alloc, &written, times)
}

/// Writes the certificate so often, and counts what it has.
fn counts_of(alloc: Global, written: &Written, times: u32) -> Result<Counts, Fail> {
    let cert = used_cert(&written.certs);
    let Cert { x, dual } = cert;
    if dual.up.len() != dual.y.len() + dual.z.len() {
        return Err(Fail::Text);
    }
    let mut text = cert_text(alloc, cert)?;
    for _ in 1..times {
        text = cert_text(alloc, cert)?;
    }
    Ok(Counts {
        lengths: x.len(),
        numbers: dual.up.len(),
        bytes: text.len(),
    })
}
