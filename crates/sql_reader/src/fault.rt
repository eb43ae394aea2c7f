//! Why a text has no queries.

use prefsql_lexer::{LexFault, Spot};
use sql_parser::ParseFault;
use sql_resolver::ResolveFault;

/// Why an SQL text has no queries over a set of tables.
#[derive(Clone, Copy, Debug, PartialEq, Eq)]
pub enum SqlFault {
    /// The first fault and its place in bytes: a lexical one (E101 to E105 and E107), a grammar
    /// fault (E201 to E203), or what a statement owes and does not keep (E301 to E305, E314 to
    /// E316 and E401).
    Bad(Spot),
    /// Want of memory, or of room for a number in a tree.
    Memory,
}

impl From<LexFault> for SqlFault {
    ghost use Rattle.std.specs.Prelude.{◌≡◌};
    ghost use Rattle.sql_reader.specs.Stages.{of_lexing};

    ghost from_gives = { λ fault e. e ≡ of_lexing fault };

    fn from(fault: LexFault) -> SqlFault {
        match fault {
            LexFault::Bad(spot) => SqlFault::Bad(spot),
            LexFault::Memory => SqlFault::Memory,
        }
    }
}

impl From<ParseFault> for SqlFault {
    ghost use Rattle.std.specs.Prelude.{◌≡◌};
    ghost use Rattle.sql_reader.specs.Stages.{of_parsing};

    ghost from_gives = { λ fault e. e ≡ of_parsing fault };

    fn from(fault: ParseFault) -> SqlFault {
        match fault {
            ParseFault::Bad(spot) => SqlFault::Bad(spot),
            ParseFault::Memory => SqlFault::Memory,
        }
    }
}

impl From<ResolveFault> for SqlFault {
    ghost use Rattle.std.specs.Prelude.{◌≡◌};
    ghost use Rattle.sql_reader.specs.Stages.{of_resolving};

    ghost from_gives = { λ fault e. e ≡ of_resolving fault };

    fn from(fault: ResolveFault) -> SqlFault {
        match fault {
            ResolveFault::Bad(spot) => SqlFault::Bad(spot),
            ResolveFault::Memory => SqlFault::Memory,
        }
    }
}
