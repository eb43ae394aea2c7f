ghost use Rattle.std.specs.Prelude.{◌≡◌, ◌≤◌, None, length, IfOk};

use crate::adapters::RETRIES;
use crate::{Failed, Sink};
use std::io::{self, ErrorKind, Write};
use std::marker::Model;

/// A sink over a writer of std. It tells nothing of content, and flushes what it wrote before it
/// answers. Each write that fails is counted.
#[derive(Drop)]
pub struct StdSink<W: Write> {
    inner: W,
    faults: u64,
}

// A contract sees how often it failed.
impl<W: Write> Model for StdSink<W> {
    ghost use Rattle.std.specs.Prelude.{ℕ};

    ghost Value = { ℕ };

    ghost view = { λ s. s.faults };
}

impl<W: Write> StdSink<W> {
    /// A sink over this writer, which has not failed yet.
    pub fn new(inner: W) -> StdSink<W>
        ensures { result ≡ 0 }
    {
        StdSink { inner, faults: 0 }
    }
}

// Writes some of the bytes. An interrupted call is tried again, at most `RETRIES` times.
fn write_some<W: Write>(inner: &mut W, bytes: &[u8]) -> io::Result<usize>
    ensures { IfOk result (λ count. count ≤ length bytes.now) }
{
    for _ in 0..RETRIES {
        match inner.write(bytes) {
            Ok(count) => return Ok(count),
            Err(error) => {
                if error.kind() != ErrorKind::Interrupted {
                    return Err(error);
                }
            }
        }
    }
    inner.write(bytes)
}

// Flushes what was written. An interrupted call is tried again, at most `RETRIES` times.
fn flush_all<W: Write>(inner: &mut W) -> io::Result<()> {
    for _ in 0..RETRIES {
        match inner.flush() {
            Ok(()) => return Ok(()),
            Err(error) => {
                if error.kind() != ErrorKind::Interrupted {
                    return Err(error);
                }
            }
        }
    }
    inner.flush()
}

impl<W: Write> Sink for StdSink<W> {
    ghost written = { λ _. None };

    ghost faults = { λ s. s };

    fn write(&mut self, bytes: &[u8]) -> Result<usize, Failed> {
        let count = write_some(&mut self.inner, bytes).unwrap_or(0);
        if count > 0 && flush_all(&mut self.inner).is_ok() {
            return Ok(count);
        }
        self.faults = self.faults.saturating_add(1);
        Err(Failed)
    }
}
