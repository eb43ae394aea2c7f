ghost use Rattle.std.specs.Prelude.{◌≡◌, ℕ, ◌≤◌, ◌<◌, Some, length, drop, IsErr, OnOk};
ghost use Rattle.std.specs.Io.{ReadsAtMost};
ghost use Rattle.std.specs.Io.KnownBytes.{ReadConsumes};
ghost use Rattle.prefsql_io.specs.Counts.{HasCause};
ghost use Rattle.prefsql_io.specs.MemoryForms.{no_calls, MemoryReads};

use crate::memory::calls::Calls;
use crate::{Failed, Source};
use std::marker::Model;

/// A source of bytes in memory. A read fails exactly where its number is listed.
#[derive(Debug, Drop)]
pub struct MemorySource {
    bytes: Vec<u8>,
    at: usize,
    piece: usize,
    calls: Calls,
}

impl Model for MemorySource {
    ghost use Rattle.std.specs.Prelude.{◌≤◌, length, drop};
    ghost use Rattle.prefsql_io.specs.MemoryForms.{SourceState};

    ghost Value = { SourceState };

    ghost view = { λ s. record {
      left = drop s.at s.bytes.items;
      piece = s.piece;
      calls = s.calls;
    } };

    ghost invariant = { λ s. (s.at ≤ length s.bytes.items) × (1 ≤ s.piece) };
}

impl MemorySource {
    /// A source of these bytes. Each read moves at most `piece` bytes, which is at least 1, and the
    /// reads that `fail` lists fail. The first has the number 1.
    pub fn new(bytes: Vec<u8>, piece: usize, fail: Vec<u64>) -> MemorySource
        requires { 1 ≤ piece }
        ensures { result ≡ record {
          left = bytes.items;
          piece = piece;
          calls = no_calls fail.items;
        } }
    {
        MemorySource {
            bytes,
            at: 0,
            piece,
            calls: Calls::new(fail),
        }
    }
}

impl Source for MemorySource {
    ghost left = { λ s. Some s.left };

    ghost faults = { λ s. s.calls.faults };

    fn read(&mut self, into: &mut [u8]) -> Result<usize, Failed>
        requires { 0 < length into.old }
        ensures bound { ReadsAtMost result into.new }
        ensures bytes { ReadConsumes (Some self.old.left) (Some self.new.left) result into.new }
        ensures cause { HasCause self.old.calls.faults self.new.calls.faults (IsErr result) }
        ensures kept { OnOk result (self.new.calls.faults ≡ self.old.calls.faults) }
        ensures exact { MemoryReads self.old self.new (length into.old) result }
    {
        let failed = self.calls.is_next_listed();
        self.calls.count(failed);
        if failed {
            return Err(Failed);
        }
        let left = &self.bytes[self.at..];
        let count = self.piece.min(left.len()).min(into.len());
        into[..count].copy_from_slice(&left[..count]);
        self.at += count;
        Ok(count)
    }
}
