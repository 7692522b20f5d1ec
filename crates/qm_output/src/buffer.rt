//! A buffer before a sink.

ghost use Rattle.std.specs.Prelude.{◌≡◌, ◌≤◌, ◌+◌, ◌++◌, length, take, IfOk};

use crate::output::Output;
use def_output::Stopped;
use qm_io::{Memory, Sink, write_all};
use std::alloc::Global;

/// The number of bytes that a buffer holds.
const ROOM: usize = 65_536;

/// The memory of a buffer.
#[derive(Drop)]
pub struct Room {
    bytes: Vec<u8>,
}

impl Room {
    /// Takes the memory of a buffer.
    pub fn new(alloc: Global) -> Result<Room, Memory>
        ensures { IfOk result (λ room. length room.bytes.items ≡ ROOM) }
    {
        let bytes = vec![in alloc; 0u8; ROOM]?;
        Ok(Room { bytes })
    }
}

/// A text on its way to a sink, to which it goes in pieces of 65,536 bytes. It takes no memory.
#[derive(Drop)]
pub struct Buffer<'a, K> {
    sink: &'a mut K,
    room: &'a mut [u8],
    held: usize,
    ghost fits: { held ≤ length room.now },
}

impl<'a, K: Sink> Buffer<'a, K> {
    ghost use Rattle.std.specs.Prelude.{◌≡◌, ◌≤◌, ◌+◌, ◌⊎◌, [], length, take, OnOk, OnErr};
    ghost use Rattle.def_output.specs.Buffered.{buffered, BrokeOff, PassedOn};

    /// A buffer before a sink, in which nothing waits.
    pub fn new(sink: &'a mut K, room: &'a mut Room) -> Buffer<'a, K>
        ensures same { result.sink.ghost_name ≡ sink.entry.ghost_name }
        ensures sink { result.sink.now ≡ sink.old }
        ensures empty { take result.held result.room.now ≡ [] }
    {
        Buffer {
            sink,
            room: &mut room.bytes,
            held: 0,
        }
    }

    /// Hands what waits to the sink.
    pub fn flush(&mut self) -> Result<(), Stopped>
        ensures same { self.new.sink.ghost_name ≡ self.old.sink.ghost_name }
        ensures empty { OnOk result (take self.new.held self.new.room.now ≡ []) }
        ensures whole { OnOk result (PassedOn
            (buffered (K.state self.old.sink.now).told (K.state self.old.sink.now).faults
            (take self.old.held self.old.room.now))
            (buffered (K.state self.new.sink.now).told (K.state self.new.sink.now).faults
            (take self.new.held self.new.room.now))
            []) }
        ensures part { OnErr result (BrokeOff
            (buffered (K.state self.old.sink.now).told (K.state self.old.sink.now).faults
            (take self.old.held self.old.room.now))
            (buffered (K.state self.new.sink.now).told (K.state self.new.sink.now).faults
            (take self.new.held self.new.room.now))
            []) }
    {
        match write_all(self.sink, &self.room[..self.held]) {
            Ok(()) => {
                self.held = 0;
                Ok(())
            }
            Err(_) => Err(Stopped),
        }
    }

    /// Hands what waits to the sink where so many bytes more would not fit behind it.
    fn make_room(&mut self, count: usize) -> Result<(), Stopped>
        ensures same { self.new.sink.ghost_name ≡ self.old.sink.ghost_name }
        ensures room { OnOk result ((self.new.held + count ≤ length self.new.room.now)
            ⊎ (take self.new.held self.new.room.now ≡ [])) }
        ensures whole { OnOk result (PassedOn
            (buffered (K.state self.old.sink.now).told (K.state self.old.sink.now).faults
            (take self.old.held self.old.room.now))
            (buffered (K.state self.new.sink.now).told (K.state self.new.sink.now).faults
            (take self.new.held self.new.room.now))
            []) }
        ensures part { OnErr result (BrokeOff
            (buffered (K.state self.old.sink.now).told (K.state self.old.sink.now).faults
            (take self.old.held self.old.room.now))
            (buffered (K.state self.new.sink.now).told (K.state self.new.sink.now).faults
            (take self.new.held self.new.room.now))
            []) }
    {
        if count <= self.room.len() - self.held {
            return Ok(());
        }
        self.flush()
    }

    /// Hands a piece to the sink where nothing waits before it.
    fn pass(&mut self, piece: &[u8]) -> Result<(), Stopped>
        requires empty { take self.old.held self.old.room.now ≡ [] }
        ensures same { self.new.sink.ghost_name ≡ self.old.sink.ghost_name }
        ensures whole { OnOk result (PassedOn
            (buffered (K.state self.old.sink.now).told (K.state self.old.sink.now).faults
            (take self.old.held self.old.room.now))
            (buffered (K.state self.new.sink.now).told (K.state self.new.sink.now).faults
            (take self.new.held self.new.room.now))
            piece.now) }
        ensures part { OnErr result (BrokeOff
            (buffered (K.state self.old.sink.now).told (K.state self.old.sink.now).faults
            (take self.old.held self.old.room.now))
            (buffered (K.state self.new.sink.now).told (K.state self.new.sink.now).faults
            (take self.new.held self.new.room.now))
            piece.now) }
    {
        match write_all(self.sink, piece) {
            Ok(()) => Ok(()),
            Err(_) => Err(Stopped),
        }
    }

    /// Lets a piece wait.
    fn hold(&mut self, piece: &[u8])
        requires room { self.old.held + length piece.now ≤ length self.old.room.now }
        ensures same { self.new.sink.ghost_name ≡ self.old.sink.ghost_name }
        ensures whole { PassedOn
            (buffered (K.state self.old.sink.now).told (K.state self.old.sink.now).faults
            (take self.old.held self.old.room.now))
            (buffered (K.state self.new.sink.now).told (K.state self.new.sink.now).faults
            (take self.new.held self.new.room.now))
            piece.now }
    {
        fill(self.room, self.held, piece);
        self.held += piece.len();
    }
}

/// Writes a piece at a place.
fn fill(room: &mut [u8], at: usize, piece: &[u8])
    requires { at + length piece.now ≤ length room.old }
    ensures text { take (at + length piece.now) room.new ≡ take at room.old ++ piece.now }
    ensures size { length room.new ≡ length room.old }
{
    let end = at + piece.len();
    room[at..end].copy_from_slice(piece);
}

impl<K: Sink> Output for Buffer<'_, K> {
    ghost use Rattle.std.proofs.Common.{refl, ◌∙◌};
    ghost use Rattle.def_output.specs.Buffered.{buffered, BrokeOff, PassedOn};
    ghost use Rattle.qm_output.specs.Laws.{broke_before, broke_later, passed_more, passed_nothing};

    ghost takes = { λ s t text. (t.sink.ghost_name ≡ s.sink.ghost_name) × PassedOn
        (buffered (K.state s.sink.now).told (K.state s.sink.now).faults (take s.held s.room.now))
        (buffered (K.state t.sink.now).told (K.state t.sink.now).faults (take t.held t.room.now)) text };

    ghost stops = { λ s t text. (t.sink.ghost_name ≡ s.sink.ghost_name) × BrokeOff
        (buffered (K.state s.sink.now).told (K.state s.sink.now).faults (take s.held s.room.now))
        (buffered (K.state t.sink.now).told (K.state t.sink.now).faults (take t.held t.room.now)) text };

    fn put(&mut self, piece: &[u8]) -> Result<(), Stopped> {
        self.make_room(piece.len())?;
        if piece.len() > self.room.len() - self.held {
            return self.pass(piece);
        }
        self.hold(piece);
        Ok(())
    }

    ghost takes_nothing = { λ at. (refl, passed_nothing _) };

    ghost takes_more = { λ a b c s t p q. (q.0 ∙ p.0, passed_more _ _ _ s t p.1 q.1) };

    ghost stops_later = { λ a b c s t p q. (q.0 ∙ p.0, broke_later _ _ _ s t p.1 q.1) };

    ghost stops_before = { λ a b s t p. (p.0, broke_before _ _ s t p.1) };
}
