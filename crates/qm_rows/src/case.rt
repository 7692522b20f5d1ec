//! A case: the words and the input of a run, and what it has to answer.

use qm_io::{MemSink, MemSource};
use qm_top::run;
use std::alloc::{AllocError, Global};
use std::io::{self, ErrorKind};
use std::str;

/// How many bytes a stream of a case moves in one call.
const STEP: usize = 4096;

/// The words of a run, one a line, and its input; and the status, the error line and the output that are wanted.
#[derive(Drop)]
pub(crate) struct Case {
    pub(crate) words: Vec<u8>,
    pub(crate) status: Vec<u8>,
    pub(crate) err: Vec<u8>,
    pub(crate) input: Vec<u8>,
    pub(crate) out: Vec<u8>,
}

/// The part of a case's file that a line belongs to.
#[derive(Clone, Copy)]
enum Part {
    Words,
    Status,
    Err,
    In,
    Out,
}

impl Case {
    /// A case with the command `tidy`, and all else empty.
    pub(crate) fn tidy(alloc: Global) -> Result<Self, AllocError> {
        let mut case = Case::empty(alloc);
        case.words.extend_from_slice(b"tidy\n")?;
        Ok(case)
    }

    /// Reads a case's file: each part stands, byte by byte, behind a line `== NAME`.
    pub(crate) fn read(alloc: Global, text: &[u8]) -> Result<Self, AllocError> {
        let mut case = Case::empty(alloc);
        let mut part = Part::Words;
        for line in text.split_inclusive(|byte| *byte == b'\n') {
            match part_named(line) {
                Some(named) => part = named,
                None => case.add(part, line)?,
            }
        }
        Ok(case)
    }

    /// A case with nothing in it.
    pub(crate) fn empty(alloc: Global) -> Self {
        Case {
            words: Vec::new(alloc),
            status: Vec::new(alloc),
            err: Vec::new(alloc),
            input: Vec::new(alloc),
            out: Vec::new(alloc),
        }
    }

    fn add(&mut self, part: Part, line: &[u8]) -> Result<(), AllocError> {
        match part {
            Part::Words => self.words.extend_from_slice(line),
            Part::Status => self.status.extend_from_slice(line),
            Part::Err => self.err.extend_from_slice(line),
            Part::In => self.input.extend_from_slice(line),
            Part::Out => self.out.extend_from_slice(line),
        }
    }
}

/// The part that a heading names, where the line is one.
fn part_named(line: &[u8]) -> Option<Part> {
    match line {
        b"== words\n" => Some(Part::Words),
        b"== status\n" => Some(Part::Status),
        b"== err\n" => Some(Part::Err),
        b"== in\n" => Some(Part::In),
        b"== out\n" => Some(Part::Out),
        _ => None,
    }
}

/// Whether a run of the case's words over its input has the status, the output and the error line that it names.
pub(crate) fn passes(alloc: Global, case: Case) -> io::Result<bool> {
    let words = words_of(alloc, &case.words)?;
    let mut input = MemSource::new(case.input, STEP, Vec::new(alloc));
    let mut out = MemSink::new(alloc, STEP, Vec::new(alloc));
    let mut err = MemSink::new(alloc, STEP, Vec::new(alloc));
    let status = run(alloc, &words, &mut input, &mut out, &mut err).status();
    let said = format!(in alloc; "{status}\n")?;
    Ok(
        said.as_bytes() == case.status.as_slice()
            && out.taken() == case.out.as_slice()
            && err.taken() == case.err.as_slice(),
    )
}

fn words_of(alloc: Global, lines: &[u8]) -> io::Result<Vec<String>> {
    let text = str::from_utf8(lines).map_err(|_| io::Error::from(ErrorKind::InvalidData))?;
    let mut words = Vec::new(alloc);
    for word in text.lines() {
        words.push(word.to_string(alloc)?)?;
    }
    Ok(words)
}
