//! The library for C: one call that runs a command over bytes in memory.
#![tactic(auto)]

ghost use Rattle.std.specs.Prelude.{◌≡◌, []};
ghost use Rattle.def_io.specs.Bytes.{Bytes};
ghost use Rattle.def_lib.specs.Calls.{HasRunOver, IsHandedOver};

mod given;
mod words;

use crate::given::Given;
use crate::words::WordLines;
use qm_io::MemSink;
use qm_top::{Answer, run_process};
use std::alloc::Global;

/// What came of a call: the exit status of the run, and how many bytes it wrote and said.
#[repr(C)]
#[derive(Clone, Copy)]
pub struct Ran {
    pub status: u8,
    pub written: usize,
    pub said: usize,
}

/// Runs a command over an input, both in memory, and puts what it writes and what it says into two buffers. `words` are
/// those behind the program's name, one a line. A text that does not fit is cut off, and its whole length is told.
#[unsafe(no_mangle)]
pub extern "C" fn quadq_run(
    alloc: Global,
    words: &[u8],
    input: &[u8],
    out: &mut [u8],
    err: &mut [u8],
) -> Ran
    ensures run { (written said : Bytes) × HasRunOver words.now input.now written said result.status
        × IsHandedOver written out.old out.new result.written
        × IsHandedOver said err.old err.new result.said }
{
    let mut written = MemSink::new(alloc, usize::MAX, Vec::new(alloc));
    let mut said = MemSink::new(alloc, usize::MAX, Vec::new(alloc));
    let status = run_over(alloc, words, input, &mut written, &mut said);
    Ran {
        status,
        written: hand_over(written.taken(), out),
        said: hand_over(said.taken(), err),
    }
}

/// Runs the words that stand in the lines of a text, and answers the exit status.
#[tactic(auto, using(crate::proofs::Told::gave_up))]
fn run_over(alloc: Global, words: &[u8], input: &[u8], out: &mut MemSink, err: &mut MemSink) -> u8
    requires new_out { (out.old.taken ≡ []) × (out.old.faults ≡ 0) }
    requires new_err { (err.old.taken ≡ []) × (err.old.faults ≡ 0) }
    ensures { HasRunOver words.now input.now out.new.taken err.new.taken result }
{
    let mut source = Given::new(input);
    match WordLines::of(alloc, words) {
        Ok(line) => run_process(alloc, &line, &mut source, out, err),
        Err(_) => Answer::Memory.status(),
    }
}

/// Copies as much of a text to the front of a buffer as it has room for, and tells the length of the text.
fn hand_over(text: &[u8], buffer: &mut [u8]) -> usize
    ensures { IsHandedOver text.now buffer.old buffer.new result }
{
    let count = text.len().min(buffer.len());
    buffer[..count].copy_from_slice(&text[..count]);
    text.len()
}
