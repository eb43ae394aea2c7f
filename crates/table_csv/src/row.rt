//! A record of a table file as a row.

ghost use Rattle.std.specs.Prelude.{◌≤◌, length};
ghost use Rattle.csv.specs.Records.{fields_of};
ghost use Rattle.table_csv.specs.Fault.{Gives, unless_faulty};
ghost use Rattle.table_csv.specs.Row.{row_faults, row_of};

use crate::cell::{number_cell, read_cell};
use crate::codes::{FIELD_COUNT, TOO_MANY_ROWS};
use crate::fault::{TableFault, bad};
use csv::ByteRecord;
use prefsql_tables::{AnswerRow, Column};
use prefsql_values::List;
use std::alloc::Global;

/// The number of the last record that may hold a row.
const LAST_RECORD: u32 = 100_001;

/// The row of the record with this number, or its first fault.
pub(crate) fn read_row(
    alloc: Global,
    columns: &[Column],
    at_record: u32,
    fields: &ByteRecord,
) -> Result<AnswerRow, TableFault>
    requires { length columns.now ≤ 64 }
    ensures { Gives (unless_faulty (row_faults columns.now at_record (fields_of fields.now))
        (row_of columns.now (fields_of fields.now))) result }
{
    if fields.len() != columns.len() {
        return Err(bad(FIELD_COUNT, at_record, 0));
    }
    if at_record > LAST_RECORD {
        return Err(bad(TOO_MANY_ROWS, at_record, 0));
    }
    let mut cells = Vec::with_capacity(alloc, columns.len())?;
    for (place, column) in columns.iter().enumerate() {
        let Some(field) = fields.get(place) else {
            break;
        };
        let cell = match number_cell(column, field) {
            Some(cell) => cell,
            None => read_cell(alloc, column, field, at_record, place as u32 + 1)?,
        };
        cells.push(cell)?;
    }
    Ok(AnswerRow {
        cells: List::of(cells),
    })
}
