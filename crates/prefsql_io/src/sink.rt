ghost use Rattle.std.specs.Prelude.{◌≡◌, ℕ, ◌<◌, List, Option, length, IsErr, OnOk};
ghost use Rattle.std.specs.Io.KnownBytes.{WriteAppends};
ghost use Rattle.prefsql_io.specs.Counts.{HasCause};
ghost use Rattle.prefsql_io.specs.Streams.{WritesSome};

use crate::Failed;

/// Where bytes go. Its meaning is the bytes that were written, where it tells them. Its count of
/// faults never falls, and may stand still at `u64::MAX`.
pub trait Sink {
    // the bytes that were written, where it tells them
    ghost written: { Self → Option (List ℕ) };

    // how often it failed
    ghost faults: { Self → ℕ };

    /// Appends a front of a piece that is not empty, and says how many bytes, at least 1. A write
    /// that failed appended none and raised the count of faults, which any other leaves as it was.
    /// It takes no memory.
    fn write(&mut self, bytes: &[u8]) -> Result<usize, Failed>
        requires { 0 < length bytes.now }
        ensures bound { WritesSome result bytes.now }
        ensures bytes { WriteAppends (written self.old) (written self.new) result bytes.now }
        ensures cause { HasCause (faults self.old) (faults self.new) (IsErr result) }
        ensures kept { OnOk result (faults self.new ≡ faults self.old) };
}
