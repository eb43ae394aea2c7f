ghost use Rattle.std.specs.Prelude.{◌≡◌, ◌<◌, ◌≤◌, ◌-◌, ◌^◌, None, false, IfOk, vec_len};

use crate::adapters::StdSource;
use crate::{LoadError, ReadError, Shelf, read_to_end};
use std::alloc::Global;
use std::fs;
use std::marker::Model;
use std::rt::HostRuntime;

/// A shelf over the files of the system. It tells nothing of them and is not sure. Each load that
/// fails is counted.
#[derive(Drop)]
pub struct FileShelf {
    runtime: HostRuntime,
    faults: u64,
}

// A contract sees how often it failed.
impl Model for FileShelf {
    ghost use Rattle.std.specs.Prelude.{ℕ};

    ghost Value = { ℕ };

    ghost view = { λ s. s.faults };
}

impl FileShelf {
    /// A shelf over the files that this runtime opens, which has not failed yet.
    pub fn new(runtime: HostRuntime) -> FileShelf
        ensures { result ≡ 0 }
    {
        FileShelf { runtime, faults: 0 }
    }
}

// Opens a file and reads it to its end.
fn load_file(
    runtime: &HostRuntime,
    alloc: Global,
    path: &str,
    limit: usize,
) -> Result<Vec<u8>, LoadError>
    requires { limit < 2 ^ 64 - 1 }
    ensures { IfOk result (λ loaded. vec_len loaded ≤ limit) }
{
    let Ok(file) = fs::open(runtime, path) else {
        return Err(LoadError::Failed);
    };
    let mut source = StdSource::new(file);
    match read_to_end(alloc, &mut source, limit) {
        Ok(loaded) => Ok(loaded),
        Err(ReadError::Failed) => Err(LoadError::Failed),
        Err(ReadError::TooLong) => Err(LoadError::TooLong),
        Err(ReadError::Memory) => Err(LoadError::Memory),
    }
}

impl Shelf for FileShelf {
    ghost files = { λ _. None };

    ghost sure = { λ _. false };

    ghost faults = { λ s. s };

    ghost sure_tells = { λ s sure. sure };

    fn load(&mut self, alloc: Global, path: &str, limit: usize) -> Result<Vec<u8>, LoadError> {
        let result = load_file(&self.runtime, alloc, path, limit);
        if let Err(LoadError::Failed) = &result {
            self.faults = self.faults.saturating_add(1);
        }
        result
    }
}
