//! The words of a command line.

ghost use Rattle.std.specs.Prelude.{◌≡◌, ◌≤◌, List, ℕ, Option, None, [], map, take, length, string_bytes};
ghost use Rattle.std.specs.Prelude.{IfOk, IfSome, IfNone, IsErrOf};
ghost use Rattle.std.specs.Str.{IsUtf8};
ghost use Rattle.def_io.specs.Words.{AreAll, IsLonger, IsReadAt, IsWordAt, ReadsWords};

use crate::traits::Memory;
use std::alloc::{AllocError, Global};
use std::env::{Env, FillError};
use std::str;

/// Where the words of a command line come from.
pub trait CommandLine {
    /// The words after the program's name, where they can be told.
    ghost given: { Self → Option (List (List ℕ)) } = { λ _. None };

    /// Copies a word to the front of the buffer and says how long it is.
    fn word(&self, i: usize, buf: &mut [u8]) -> Result<usize, FillError>
        ensures fits { IfOk result (λ n. n ≤ length buf.old) }
        ensures word { IfOk result (λ n. IsWordAt (given self.now) i (take n buf.new)) }
        ensures end { IsErrOf result FillError.NotPresent → AreAll (given self.now) i }
        ensures long { IsErrOf result FillError.TooLong → IsLonger (given self.now) i (length buf.old) };
}

/// The words of a process. It tells nothing of them.
#[derive(Drop)]
pub struct ProcessLine<R: Env + Drop> {
    env: R,
}

impl<R: Env + Drop> ProcessLine<R> {
    /// The words that an environment has behind the program's name.
    pub fn new(env: R) -> Self
        ensures { result.env ≡ env }
    {
        ProcessLine { env }
    }
}

impl<R: Env + Drop> CommandLine for ProcessLine<R> {
    fn word(&self, i: usize, buf: &mut [u8]) -> Result<usize, FillError> {
        self.env.arg(i.saturating_add(1), buf)
    }
}

/// The words of a command line, which may be any bytes. One that is no UTF-8 text, or does not fit in the buffer, is
/// read as the empty word.
pub fn words_of<W: CommandLine>(
    alloc: Global,
    line: &W,
    buffer: &mut [u8],
) -> Result<Vec<String>, Memory>
    ensures { IfOk result (λ words. ReadsWords (length buffer.old) (W.given line.now) (map string_bytes words.items)) }
{
    let mut words = Vec::new(alloc);
    'words: for i in 0..usize::MAX {
        match word_of(alloc, line, i, buffer)? {
            Some(word) => words.push(word)?,
            None => return Ok(words),
        }
    }
    Err(AllocError)
}

/// Word `i` of a command line, where there is one.
fn word_of<W: CommandLine>(
    alloc: Global,
    line: &W,
    i: usize,
    buffer: &mut [u8],
) -> Result<Option<String>, Memory>
    ensures word { IfOk result (λ found. IfSome found (λ word.
        IsReadAt (length buffer.old) (W.given line.now) i (string_bytes word))) }
    ensures end { IfOk result (λ found. IfNone found (AreAll (W.given line.now) i)) }
{
    match line.word(i, buffer) {
        Ok(count) => Ok(Some(text_of(alloc, &buffer[..count])?)),
        Err(FillError::TooLong) => Ok(Some(String::new(alloc))),
        Err(FillError::NotPresent) => Ok(None),
    }
}

/// The text of these bytes, or the empty word where they are none.
fn text_of(alloc: Global, bytes: &[u8]) -> Result<String, Memory>
    ensures text { IsUtf8 bytes.now → IfOk result (λ word. string_bytes word ≡ bytes.now) }
    ensures other { ¬ IsUtf8 bytes.now → IfOk result (λ word. string_bytes word ≡ []) }
{
    match str::from_utf8(bytes) {
        Ok(text) => String::from_str(alloc, text),
        Err(_) => Ok(String::new(alloc)),
    }
}
