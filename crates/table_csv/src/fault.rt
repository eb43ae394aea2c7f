ghost use Rattle.std.specs.Prelude.{◌≡◌};
ghost use Rattle.table_csv.specs.declared.fault.TableFault.TheVariants as fault;

use prefsql_values::Memory;
use std::alloc::{AllocError, AllocFailed};

/// Where a table file has a fault, and which. Records are numbered from 1, the header first, and
/// fields from 1. Field 0 is the whole record, and record 0 the whole file.
#[derive(Clone, Copy, Debug, PartialEq, Eq)]
pub struct TableSpot {
    /// 501 to 510, which the product writes as E501 to E510.
    pub code: u16,
    pub at_record: u32,
    pub at_field: u32,
}

/// Why a file is not read as a table: its first fault, or want of memory.
#[derive(Clone, Copy, Debug, PartialEq, Eq)]
pub enum TableFault {
    Bad(TableSpot),
    Memory,
}

impl From<Memory> for TableFault {
    ghost use Rattle.table_csv.specs.declared.fault.TableFault.TheVariants as fault;

    ghost from_gives = { λ _ e. e ≡ fault.Memory };

    fn from(_memory: Memory) -> TableFault {
        TableFault::Memory
    }
}

impl From<AllocError> for TableFault {
    ghost use Rattle.table_csv.specs.declared.fault.TableFault.TheVariants as fault;

    ghost from_gives = { λ _ e. e ≡ fault.Memory };

    fn from(_error: AllocError) -> TableFault {
        TableFault::Memory
    }
}

impl<T: Drop> From<AllocFailed<T>> for TableFault {
    ghost use Rattle.table_csv.specs.declared.fault.TableFault.TheVariants as fault;

    ghost from_gives = { λ _ e. e ≡ fault.Memory };

    fn from(_error: AllocFailed<T>) -> TableFault {
        TableFault::Memory
    }
}

/// A fault with this code at this place.
pub(crate) fn bad(code: u16, at_record: u32, at_field: u32) -> TableFault
    ensures { result ≡ fault.Bad (record {
      code = code;
      at_record = at_record;
      at_field = at_field;
    }) }
{
    TableFault::Bad(TableSpot {
        code,
        at_record,
        at_field,
    })
}
