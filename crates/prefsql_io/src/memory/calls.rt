ghost use Rattle.std.specs.Prelude.{◌≡◌, ◌≤◌};
ghost use Rattle.prefsql_io.specs.MemoryForms.{no_calls, fails_next, after_call};

use std::marker::Model;

/// Which calls fail, and how many were made and failed. Both counts stand still at `u64::MAX`.
#[derive(Debug, Drop)]
pub struct Calls {
    failing: Vec<u64>,
    made: u64,
    faults: u64,
}

impl Model for Calls {
    ghost use Rattle.prefsql_io.specs.MemoryForms.{CallState};

    ghost Value = { CallState };

    ghost view = { λ c. record { failing = c.failing.items; made = c.made; faults = c.faults } };
}

impl Calls {
    /// No call yet.
    pub fn new(failing: Vec<u64>) -> Calls
        ensures { result ≡ no_calls failing.items }
    {
        Calls {
            failing,
            made: 0,
            faults: 0,
        }
    }

    /// Whether the next call is one that fails.
    pub fn is_next_listed(&self) -> bool
        ensures { result ≡ fails_next self.now }
    {
        self.failing.contains(&self.made.saturating_add(1))
    }

    /// Counts a call, and a fault where it failed.
    pub fn count(&mut self, failed: bool)
        ensures after { self.new ≡ after_call failed self.old }
        ensures later { self.old.faults ≤ self.new.faults }
    {
        self.made = self.made.saturating_add(1);
        if failed {
            self.faults = self.faults.saturating_add(1);
        }
    }
}
