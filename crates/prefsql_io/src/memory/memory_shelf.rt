ghost use Rattle.std.specs.Prelude.{◌≡◌, ℕ, ◌≤◌, ◌<◌, ◌-◌, ◌^◌, [], Some, OnOk, OnErr, IfOk, IsTrue, IsErrOf, vec_len};
ghost use Rattle.std.specs.Option.{option_map};
ghost use Rattle.std.specs.List.{position};
ghost use Rattle.std.specs.Str.{bytes_eq};
ghost use Rattle.prefsql_io.specs.Counts.{HasCause};
ghost use Rattle.prefsql_io.specs.Files.{bytes_at, LoadsUnless, PutsFile};

use crate::memory::calls::Calls;
use crate::{LoadError, Shelf};
use prefsql_values::{List, Memory, Text};
use std::alloc::Global;
use std::marker::Model;

/// Files in memory. A load that is not refused for want of memory fails exactly where its number is
/// listed or the path is not held. The shelf is sure exactly where nothing is listed.
#[derive(Debug, Drop)]
pub struct MemoryShelf {
    alloc: Global,
    files: Vec<(Text, List<u8>)>,
    calls: Calls,
}

impl Model for MemoryShelf {
    ghost use Rattle.prefsql_io.specs.MemoryForms.{ShelfState};

    ghost Value = { ShelfState };

    ghost view = { λ s. record { files = s.files.items; calls = s.calls } };
}

impl MemoryShelf {
    ghost use Rattle.prefsql_io.specs.MemoryForms.{no_calls};

    /// A shelf without files, which takes no memory. The loads that `fail` lists fail. The first
    /// has the number 1, and a load that is refused for want of memory has none.
    pub fn new(alloc: Global, fail: Vec<u64>) -> MemoryShelf
        ensures { result ≡ record { files = []; calls = no_calls fail.items } }
    {
        MemoryShelf {
            alloc,
            files: Vec::new(alloc),
            calls: Calls::new(fail),
        }
    }

    /// Puts a file at a path, in the place of one that is there. After want of memory the shelf is
    /// as before.
    pub fn add(&mut self, path: &str, bytes: Vec<u8>) -> Result<(), Memory>
        ensures ok { OnOk result (PutsFile self.old.files self.new.files path.now bytes.items) }
        ensures calls { self.new.calls ≡ self.old.calls }
        ensures err { OnErr result (self.new ≡ self.old) }
    {
        match place_of(&self.files, path) {
            Some(place) => self.files[place].1 = List::of(bytes),
            None => {
                let path = Text::of(self.alloc, path)?;
                self.files.push((path, List::of(bytes)))?;
            }
        }
        Ok(())
    }
}

fn place_of(files: &[(Text, List<u8>)], path: &str) -> Option<usize>
    ensures { result ≡ position (λ file. bytes_eq file.0 path.now) files.now }
{
    files.iter().position(|file| file.0.as_str() == path)
}

fn find_file<'a>(files: &'a [(Text, List<u8>)], path: &str) -> Option<&'a [u8]>
    ensures { option_map (λ bytes. bytes.now) result ≡ bytes_at files.now path.now }
{
    files
        .iter()
        .find(|file| file.0.as_str() == path)
        .map(|file| file.1.as_slice())
}

// What a load answers, where the call is listed as one that fails or not.
fn load_listed(
    alloc: Global,
    files: &[(Text, List<u8>)],
    listed: bool,
    path: &str,
    limit: usize,
) -> Result<Vec<u8>, LoadError>
    ensures failed { LoadsUnless listed (bytes_at files.now path.now) limit result }
{
    if listed {
        return Err(LoadError::Failed);
    }
    let Some(bytes) = find_file(files, path) else {
        return Err(LoadError::Failed);
    };
    if bytes.len() > limit {
        return Err(LoadError::TooLong);
    }
    match Vec::from_slice(alloc, bytes) {
        Ok(loaded) => Ok(loaded),
        Err(_) => Err(LoadError::Memory),
    }
}

impl Shelf for MemoryShelf {
    ghost use Rattle.std.specs.Prelude.{refl};
    ghost use Rattle.prefsql_io.specs.Files.{Files, LoadTells, IsHeld};
    ghost use Rattle.prefsql_io.specs.MemoryForms.{MemoryLoads, is_nil};

    ghost files = { λ s. Some s.files };

    ghost sure = { λ s. is_nil s.calls.failing };

    ghost faults = { λ s. s.calls.faults };

    ghost sure_tells = { λ s sure. refl };

    fn load(&mut self, alloc: Global, path: &str, limit: usize) -> Result<Vec<u8>, LoadError>
        requires { limit < 2 ^ 64 - 1 }
        ensures bound { IfOk result (λ loaded. vec_len loaded ≤ limit) }
        ensures bytes { LoadTells (Some self.old.files) path.now limit result }
        ensures same { (Some self.new.files ≡ Some self.old.files)
            × (is_nil self.new.calls.failing ≡ is_nil self.old.calls.failing) }
        ensures held { IsTrue (is_nil self.old.calls.failing)
            → IsHeld (Some self.old.files) path.now → IsErrOf result LoadError.Failed → ⊥ }
        ensures cause { HasCause self.old.calls.faults self.new.calls.faults
            (IsErrOf result LoadError.Failed) }
        ensures kept { (IsErrOf result LoadError.Failed → ⊥)
            → self.new.calls.faults ≡ self.old.calls.faults }
        ensures exact { MemoryLoads self.old self.new path.now result }
    {
        let listed = self.calls.is_next_listed();
        let result = load_listed(alloc, &self.files, listed, path, limit);
        match &result {
            Err(LoadError::Memory) => {}
            Err(LoadError::Failed) => self.calls.count(true),
            _ => self.calls.count(false),
        }
        result
    }
}
