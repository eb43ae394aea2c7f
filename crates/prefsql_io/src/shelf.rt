ghost use Rattle.std.specs.Prelude.{◌≡◌, ℕ, ◌<◌, ◌≤◌, ◌-◌, ◌^◌, Bool, Option, vec_len, IfOk, IsTrue, IsSome, IsErrOf};
ghost use Rattle.prefsql_io.specs.Counts.{HasCause};

use std::alloc::Global;
use thiserror::Error;

/// Why a file was not loaded.
#[derive(Clone, Copy, Debug, PartialEq, Eq, Error)]
pub enum LoadError {
    /// The path is not held, or the file could not be read.
    #[error("the file could not be read")]
    Failed,
    /// The file has more bytes than the limit.
    #[error("more bytes than the limit")]
    TooLong,
    /// Want of memory.
    #[error("out of memory")]
    Memory,
}

/// Files by their paths. Its meaning is a finite map from paths to bytes, where it tells it, which
/// no call changes. On a sure shelf no load of a held path fails. Its count of faults never falls,
/// and may stand still at `u64::MAX`.
pub trait Shelf {
    ghost use Rattle.prefsql_io.specs.Files.{Files, LoadTells, IsHeld};

    // the files, where it tells them
    ghost files: { Self → Option Files };

    // no load of a held path fails
    ghost sure: { Self → Bool };

    // how often it failed
    ghost faults: { Self → ℕ };

    /// The bytes of the file at a path, at most `limit` of them. A file with more bytes is
    /// `TooLong`. A path that is not held is `Failed`. A load that failed raised the count of
    /// faults, which any other answer leaves as it was.
    fn load(&mut self, alloc: Global, path: &str, limit: usize) -> Result<Vec<u8>, LoadError>
        requires { limit < 2 ^ 64 - 1 }
        ensures bound { IfOk result (λ loaded. vec_len loaded ≤ limit) }
        ensures bytes { LoadTells (files self.old) path.now limit result }
        ensures same { (files self.new ≡ files self.old) × (sure self.new ≡ sure self.old) }
        ensures held { IsTrue (sure self.old) → IsHeld (files self.old) path.now
            → IsErrOf result LoadError.Failed → ⊥ }
        ensures cause { HasCause (faults self.old) (faults self.new)
            (IsErrOf result LoadError.Failed) }
        ensures kept { (IsErrOf result LoadError.Failed → ⊥) → faults self.new ≡ faults self.old };

    // a shelf that does not tell its files is not sure
    ghost sure_tells: { (s : Self) → IsTrue (sure s) → IsSome (files s) };
}
