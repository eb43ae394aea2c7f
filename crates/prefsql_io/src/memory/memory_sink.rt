ghost use Rattle.std.specs.Prelude.{◌≡◌, ℕ, ◌≤◌, ◌<◌, [], Some, length, IsErr, IfOk, OnOk, vec_len, vec_capacity};
ghost use Rattle.std.specs.Io.KnownBytes.{WriteAppends};
ghost use Rattle.prefsql_io.specs.Counts.{HasCause};
ghost use Rattle.prefsql_io.specs.Streams.{WritesSome};
ghost use Rattle.prefsql_io.specs.MemoryForms.{no_calls, MemoryWrites};

use crate::memory::calls::Calls;
use crate::{Failed, Sink};
use prefsql_values::Memory;
use std::alloc::Global;
use std::marker::Model;

/// A sink in memory, with room for some bytes. A write fails exactly where its number is listed or
/// the room is full.
#[derive(Debug, Drop)]
pub struct MemorySink {
    bytes: Vec<u8>,
    room: usize,
    piece: usize,
    calls: Calls,
}

impl Model for MemorySink {
    ghost use Rattle.std.specs.Prelude.{◌≤◌, vec_len, vec_capacity};
    ghost use Rattle.prefsql_io.specs.MemoryForms.{SinkState};

    ghost Value = { SinkState };

    ghost view = { λ s. record {
      written = s.bytes.items;
      room = s.room;
      piece = s.piece;
      calls = s.calls;
    } };

    ghost invariant = { λ s. (s.room ≤ vec_capacity s.bytes) × (vec_len s.bytes ≤ s.room)
        × (1 ≤ s.piece) };
}

impl MemorySink {
    /// An empty sink, which takes memory for `room` bytes, after which every write fails. Each
    /// write moves at most `piece` bytes, which is at least 1, and the writes that `fail` lists
    /// fail. The first has the number 1.
    pub fn new(
        alloc: Global,
        room: usize,
        piece: usize,
        fail: Vec<u64>,
    ) -> Result<MemorySink, Memory>
        requires { 1 ≤ piece }
        ensures { IfOk result
            (λ sink. sink ≡ record {
              written = [];
              room = room;
              piece = piece;
              calls = no_calls fail.items;
            }) }
    {
        Ok(MemorySink {
            bytes: Vec::with_capacity(alloc, room)?,
            room,
            piece,
            calls: Calls::new(fail),
        })
    }

    /// All bytes that were written.
    pub fn written(&self) -> &[u8]
        ensures { result.now ≡ self.now.written }
    {
        &self.bytes
    }
}

impl Sink for MemorySink {
    ghost written = { λ s. Some s.written };

    ghost faults = { λ s. s.calls.faults };

    fn write(&mut self, bytes: &[u8]) -> Result<usize, Failed>
        requires { 0 < length bytes.now }
        ensures bound { WritesSome result bytes.now }
        ensures bytes { WriteAppends (Some self.old.written)
            (Some self.new.written) result bytes.now }
        ensures cause { HasCause self.old.calls.faults self.new.calls.faults (IsErr result) }
        ensures kept { OnOk result (self.new.calls.faults ≡ self.old.calls.faults) }
        ensures exact { MemoryWrites self.old self.new bytes.now result }
    {
        let failed = self.calls.is_next_listed() || self.bytes.len() >= self.room;
        self.calls.count(failed);
        if failed {
            return Err(Failed);
        }
        let left = self.room - self.bytes.len();
        let count = self.piece.min(bytes.len()).min(left);
        self.bytes.extend_from_slice(&bytes[..count]).unwrap();
        Ok(count)
    }
}
