ghost use Rattle.std.specs.Prelude.{◌≡◌};

use prefsql_lexer::{LexFault, Spot};
use prefsql_values::{Memory, Text};
use query_parser::ParseFault;
use query_typing::TypeFault;
use sql_reader::SqlFault;
use table_csv::TableSpot;

/// The first fault of a run: of the table with this name, or of the script.
#[derive(Debug, Drop)]
pub(crate) enum Fault {
    Table(Text, TableSpot),
    Script(Spot),
}

/// Why a run has nothing to write.
#[derive(Debug, Drop)]
pub(crate) enum Stop {
    /// The words are not accepted.
    Usage,
    /// The run has a first fault.
    Refused(Fault),
    /// The script could not be read.
    ReadFault,
    /// A file could not be loaded.
    ShelfFault,
    /// Want of memory.
    Memory,
}

impl From<Memory> for Stop {
    ghost use Rattle.prefsql_session.specs.declared.fault.Stop.TheVariants as stop;

    ghost from_gives = { λ _ e. e ≡ stop.Memory };

    fn from(_memory: Memory) -> Stop {
        Stop::Memory
    }
}

impl From<LexFault> for Stop {
    ghost use Rattle.prefsql_session.specs.Stops.{lexing};

    ghost from_gives = { λ fault e. e ≡ lexing fault };

    fn from(fault: LexFault) -> Stop {
        match fault {
            LexFault::Bad(spot) => Stop::Refused(Fault::Script(spot)),
            LexFault::Memory => Stop::Memory,
        }
    }
}

impl From<ParseFault> for Stop {
    ghost use Rattle.prefsql_session.specs.Stops.{parsing};

    ghost from_gives = { λ fault e. e ≡ parsing fault };

    fn from(fault: ParseFault) -> Stop {
        match fault {
            ParseFault::Bad(spot) => Stop::Refused(Fault::Script(spot)),
            ParseFault::Memory => Stop::Memory,
        }
    }
}

impl From<TypeFault> for Stop {
    ghost use Rattle.prefsql_session.specs.Stops.{typing};

    ghost from_gives = { λ fault e. e ≡ typing fault };

    fn from(fault: TypeFault) -> Stop {
        match fault {
            TypeFault::Bad(spot) => Stop::Refused(Fault::Script(spot)),
            TypeFault::Memory => Stop::Memory,
        }
    }
}

impl From<SqlFault> for Stop {
    ghost use Rattle.prefsql_session.specs.Stops.{reading};

    ghost from_gives = { λ fault e. e ≡ reading fault };

    fn from(fault: SqlFault) -> Stop {
        match fault {
            SqlFault::Bad(spot) => Stop::Refused(Fault::Script(spot)),
            SqlFault::Memory => Stop::Memory,
        }
    }
}

/// The line for words that are not accepted.
pub(crate) const USAGE: &str =
    "usage: prefsql COMMAND [--stats] [NAME=PATH ...] or prefsql bench N\n";
