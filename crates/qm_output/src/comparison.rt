//! A text that is compared with bytes that are given.

ghost use Rattle.std.specs.Prelude.{◌≡◌, ◌≤◌, ◌<◌, length, take, slice_index};

use crate::output::Output;
use def_output::Stopped;
use std::marker::Model;

/// Compares a text with given bytes as it is put, and keeps nothing of it. It stops at the first byte at which they
/// differ.
#[derive(Debug, Drop)]
pub struct Comparison<'a> {
    given: &'a [u8],
    at: usize,
}

impl<'a> Model for Comparison<'a> {
    ghost use Rattle.std.specs.Prelude.{◌≤◌, length, drop};
    ghost use Rattle.def_output.specs.Compared.{Compared};

    ghost Value = { Compared };

    ghost view = { λ c. record { at = c.at; rest = drop c.at c.given.now } };

    ghost invariant = { λ c. c.at ≤ length c.given.now };
}

impl<'a> Comparison<'a> {
    ghost use Rattle.std.specs.Prelude.{◌≡◌, ◌↔◌, [], true};

    /// A comparison with these bytes, of which none is compared yet.
    pub fn new(given: &'a [u8]) -> Comparison<'a>
        ensures { result ≡ record { at = 0; rest = given.now } }
    {
        Comparison { given, at: 0 }
    }

    /// How many bytes were alike.
    pub fn at(&self) -> usize
        ensures { result ≡ self.now.at }
    {
        self.at
    }

    /// Whether all given bytes were met.
    #[tactic(auto, using(crate::proofs::Prefixes::nothing_left))]
    pub fn is_over(&self) -> bool
        ensures { result ≡ true ↔ self.now.rest ≡ [] }
    {
        self.at == self.given.len()
    }
}

/// How many bytes at the front of two texts are alike.
fn count_alike(text: &[u8], other: &[u8]) -> usize
    ensures text { result ≤ length text.now }
    ensures other { result ≤ length other.now }
    ensures alike { take result text.now ≡ take result other.now }
    ensures most { result < length text.now → result < length other.now
        → ¬ (slice_index text.now result ≡ slice_index other.now result) }
{
    let mut count = 0;
    while count < text.len() && count < other.len() && text[count] == other[count] {
        count += 1;
    }
    count
}

impl Output for Comparison<'_> {
    ghost use Rattle.def_output.specs.Compared.{Differs, IsAlike};
    ghost use Rattle.qm_output.specs.Laws.{alike_more, alike_nothing, differs_before, differs_later};

    ghost takes = { IsAlike };

    ghost stops = { Differs };

    #[tactic(auto, using(crate::proofs::Prefixes::differs_behind, std::proofs::lemmas::List::take_rest))]
    fn put(&mut self, piece: &[u8]) -> Result<(), Stopped> {
        let rest = &self.given[self.at..];
        let count = count_alike(rest, piece);
        self.at += count;
        if count < piece.len() {
            return Err(Stopped);
        }
        Ok(())
    }

    ghost takes_nothing = { alike_nothing };

    ghost takes_more = { alike_more };

    ghost stops_later = { differs_later };

    ghost stops_before = { differs_before };
}
