//! Why a run stops before all is written.
ghost use Rattle.std.specs.Prelude.{◌≡◌};

use prefsql_io::Failed;
use prefsql_values::Memory;

/// Why not all texts were written.
#[derive(Clone, Copy, Debug)]
pub(crate) enum Halt {
    /// A write failed.
    WriteFault,
    /// Want of memory.
    Memory,
}

impl From<Memory> for Halt {
    ghost use Rattle.prefsql_session.specs.declared.halt.Halt.TheVariants as halt;

    ghost from_gives = { λ _ e. e ≡ halt.Memory };

    fn from(_memory: Memory) -> Halt {
        Halt::Memory
    }
}

impl From<Failed> for Halt {
    ghost use Rattle.prefsql_session.specs.declared.halt.Halt.TheVariants as halt;

    ghost from_gives = { λ _ e. e ≡ halt.WriteFault };

    fn from(_failed: Failed) -> Halt {
        Halt::WriteFault
    }
}
