//! A source and a sink in memory, whose calls fail where they are told to.

ghost use Rattle.std.specs.Prelude.{◌≡◌, ◌≤◌, ◌<◌, ◌↔◌, ◌+◌, ◌-◌, ◌++◌, ℕ, []};
ghost use Rattle.std.specs.Prelude.{Some, length, drop, take, min, IsErr, IfOk, IfErr, Contains};
ghost use Rattle.def_io.specs.Faults.{HasCause};
ghost use Rattle.def_io.specs.Memory.{one_more};
ghost use Rattle.def_io.specs.Moves.{gave, took, IsEmptied};

use crate::traits::{Failed, Sink, Source};
use std::alloc::Global;
use std::marker::Model;

/// A source in memory: it gives at most `step` bytes a call, and the calls whose numbers, from 1, are in `fail_at`
/// fail.
#[derive(Debug, Drop)]
pub struct MemSource {
    bytes: Vec<u8>,
    at: usize,
    step: usize,
    fail_at: Vec<u64>,
    calls: u64,
    faults: u64,
}

impl Model for MemSource {
    ghost use Rattle.std.specs.Prelude.{◌≤◌, ◌<◌, length, drop};
    ghost use Rattle.def_io.specs.Memory.{Feed};

    ghost Value = { Feed };

    ghost view = { λ s. record {
      left = drop s.at s.bytes.items;
      step = s.step;
      fail_at = s.fail_at.items;
      calls = s.calls;
      faults = s.faults;
    } };

    ghost invariant = { λ s. (s.at ≤ length s.bytes.items) × (0 < s.step) };
}

impl MemSource {
    /// A source that holds these bytes.
    pub fn new(bytes: Vec<u8>, step: usize, fail_at: Vec<u64>) -> Self
        requires { 1 ≤ step }
        ensures { result ≡ record {
          left = bytes.items;
          step = step;
          fail_at = fail_at.items;
          calls = 0;
          faults = 0;
        } }
    {
        MemSource {
            bytes,
            at: 0,
            step,
            fail_at,
            calls: 0,
            faults: 0,
        }
    }
}

impl Source for MemSource {
    ghost state = { λ s. record { told = Some s.left; faults = s.faults } };

    fn read(&mut self, buf: &mut [u8]) -> Result<usize, Failed>
        ensures cause { HasCause self.old.faults self.new.faults result }
        ensures fits { IfOk result (λ n. n ≤ length buf.old) }
        ensures gives { IfOk result (λ n. Some self.old.left ≡ gave (take n buf.new) (Some self.new.left)) }
        ensures end { IfOk result (λ n. n ≡ 0 → 0 < length buf.old → IsEmptied (Some self.new.left)) }
        ensures still { IfErr result (λ _. Some self.new.left ≡ Some self.old.left) }
        ensures fails { IsErr result ↔ Contains self.old.fail_at (one_more self.old.calls) }
        ensures count { IfOk result (λ n. n ≡ min self.old.step (min (length buf.old) (length self.old.left))) }
        ensures err { IfErr result (λ _. self.new ≡ record self.old {
          calls = one_more self.old.calls;
          faults = one_more self.old.faults;
        }) }
        ensures ok { IfOk result (λ n. self.new ≡ record self.old {
          calls = one_more self.old.calls;
          left = drop n self.old.left;
        }) }
    {
        self.calls = self.calls.saturating_add(1);
        if self.fail_at.contains(&self.calls) {
            self.faults = self.faults.saturating_add(1);
            return Err(Failed);
        }
        let rest = &self.bytes[self.at..];
        let count = self.step.min(buf.len()).min(rest.len());
        buf[..count].copy_from_slice(&rest[..count]);
        self.at += count;
        Ok(count)
    }
}

/// A sink in memory: it takes at most `step` bytes a call, and the calls whose numbers, from 1, are in `fail_at` fail.
#[derive(Debug, Drop)]
pub struct MemSink {
    taken: Vec<u8>,
    step: usize,
    fail_at: Vec<u64>,
    calls: u64,
    faults: u64,
}

impl Model for MemSink {
    ghost use Rattle.std.specs.Prelude.{◌<◌};
    ghost use Rattle.def_io.specs.Memory.{Store};

    ghost Value = { Store };

    ghost view = { λ s. record {
      taken = s.taken.items;
      step = s.step;
      fail_at = s.fail_at.items;
      calls = s.calls;
      faults = s.faults;
    } };

    ghost invariant = { λ s. 0 < s.step };
}

impl MemSink {
    /// A sink that has taken nothing yet.
    pub fn new(alloc: Global, step: usize, fail_at: Vec<u64>) -> Self
        requires { 1 ≤ step }
        ensures { result ≡ record { taken = []; step = step; fail_at = fail_at.items; calls = 0; faults = 0 } }
    {
        MemSink {
            taken: Vec::new(alloc),
            step,
            fail_at,
            calls: 0,
            faults: 0,
        }
    }

    /// All bytes that the sink took.
    pub fn taken(&self) -> &[u8]
        ensures { result.now ≡ self.now.taken }
    {
        &self.taken
    }
}

impl Sink for MemSink {
    ghost state = { λ s. record { told = Some s.taken; faults = s.faults } };

    /// Fails also where the sink finds no memory for the bytes.
    fn write(&mut self, piece: &[u8]) -> Result<usize, Failed>
        ensures cause { HasCause self.old.faults self.new.faults result }
        ensures fits { IfOk result (λ n. n ≤ length piece.now) }
        ensures moves { IfOk result (λ n. 0 < length piece.now → 0 < n) }
        ensures takes { IfOk result (λ n. Some self.new.taken ≡ took (Some self.old.taken) (take n piece.now)) }
        ensures still { IfErr result (λ _. Some self.new.taken ≡ Some self.old.taken) }
        ensures fails { Contains self.old.fail_at (one_more self.old.calls) → IsErr result }
        ensures count { IfOk result (λ n. n ≡ min self.old.step (length piece.now)) }
        ensures err { IfErr result (λ _. self.new ≡ record self.old {
          calls = one_more self.old.calls;
          faults = one_more self.old.faults;
        }) }
        ensures ok { IfOk result (λ n. self.new ≡ record self.old {
          calls = one_more self.old.calls;
          taken = self.old.taken ++ take n piece.now;
        }) }
    {
        self.calls = self.calls.saturating_add(1);
        let count = self.step.min(piece.len());
        let fails = self.fail_at.contains(&self.calls);
        if fails || self.taken.extend_from_slice(&piece[..count]).is_err() {
            self.faults = self.faults.saturating_add(1);
            return Err(Failed);
        }
        Ok(count)
    }
}
