ghost use Rattle.std.specs.Prelude.{◌≡◌, IfOk};
ghost use Rattle.std.specs.String.{string_bytes};
ghost use Rattle.prefsql_session.specs.Faults.{fault_line, table_fault_line, script_fault_line};

use crate::fault::Fault;
use prefsql_lexer::Spot;
use std::alloc::{AllocError, Global};
use table_csv::TableSpot;

fn table_line(alloc: Global, name: &str, spot: TableSpot) -> Result<String, AllocError>
    ensures { IfOk result (λ line. string_bytes line ≡ table_fault_line name.now spot) }
{
    let TableSpot {
        code,
        at_record,
        at_field,
    } = spot;
    format!(in alloc; "error E{code} in table {name} record {at_record} field {at_field}\n")
}

fn script_line(alloc: Global, spot: Spot) -> Result<String, AllocError>
    ensures { IfOk result (λ line. string_bytes line ≡ script_fault_line spot) }
{
    let Spot { code, at } = spot;
    format!(in alloc; "error E{code} at byte {at}\n")
}

/// The line that names a fault.
pub(crate) fn fault_line(alloc: Global, fault: &Fault) -> Result<String, AllocError>
    ensures { IfOk result (λ line. string_bytes line ≡ fault_line fault.now) }
{
    match fault {
        Fault::Table(name, spot) => table_line(alloc, name.as_str(), *spot),
        Fault::Script(spot) => script_line(alloc, *spot),
    }
}
