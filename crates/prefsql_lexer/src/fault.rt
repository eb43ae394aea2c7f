//! Where a script cannot be cut into tokens, and why.

use prefsql_values::Memory;

/// A code, such as 101 for E101, and a place, which is the number of bytes before it.
#[derive(Clone, Copy, Debug, PartialEq, Eq)]
pub struct Spot {
    pub code: u16,
    pub at: u32,
}

/// Why a script has no tokens: its first lexical fault, or want of memory.
#[derive(Clone, Copy, Debug, PartialEq, Eq)]
pub enum LexFault {
    /// E101 for a character that begins no token, E102 for a quote that no quoted form begins with,
    /// E103 for a number of more than 18 digits, E104 for a token that nests above the limit, E105
    /// for an identifier of no character or more than 64, E107 for bytes that are not UTF-8.
    Bad(Spot),
    Memory,
}

impl From<Memory> for LexFault {
    ghost use Rattle.std.specs.Prelude.{◌≡◌};
    ghost use Rattle.prefsql_lexer.specs.declared.fault.LexFault.TheVariants as fault;

    ghost from_gives = { λ _ refused. refused ≡ fault.Memory };

    fn from(_memory: Memory) -> LexFault {
        LexFault::Memory
    }
}
