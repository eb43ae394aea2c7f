ghost use Rattle.std.specs.Prelude.{◌≡◌, ℕ, ◌<◌, List, Option, length, IsErr, OnOk};
ghost use Rattle.std.specs.Io.{ReadsAtMost};
ghost use Rattle.std.specs.Io.KnownBytes.{ReadConsumes};
ghost use Rattle.prefsql_io.specs.Counts.{HasCause};

use crate::Failed;

/// Where bytes come from. Its meaning is the bytes that are left, where it tells them. Its count of
/// faults never falls, and may stand still at `u64::MAX`.
pub trait Source {
    // the bytes that are left, where it tells them
    ghost left: { Self → Option (List ℕ) };

    // how often it failed
    ghost faults: { Self → ℕ };

    /// Moves bytes from the front of what is left into the front of a buffer that is not empty, and
    /// says how many.
    /// 0 is the end. A read that failed moved none and raised the count of faults, which any other
    /// leaves as it was. It takes no memory.
    fn read(&mut self, into: &mut [u8]) -> Result<usize, Failed>
        requires { 0 < length into.old }
        ensures bound { ReadsAtMost result into.new }
        ensures bytes { ReadConsumes (left self.old) (left self.new) result into.new }
        ensures cause { HasCause (faults self.old) (faults self.new) (IsErr result) }
        ensures kept { OnOk result (faults self.new ≡ faults self.old) };
}
