//! The rows of a table, laid out to be gone through.
ghost use Rattle.std.specs.Prelude.{◌≡◌, ◌<◌, length, slice_index_or, IfOk};
ghost use Rattle.prefsql_tables.specs.Table.{HasTable, no_row, rows_of};

use prefsql_tables::{AnswerRow, TableSet};
use prefsql_values::{List, Memory};
use std::alloc::Global;

/// The rows of the table at this position.
pub(crate) fn table_rows(
    alloc: Global,
    tables: &TableSet,
    table: u32,
) -> Result<List<AnswerRow>, Memory>
    requires { HasTable tables.now table }
    ensures { IfOk result (λ rows. rows ≡ rows_of tables.now table) }
{
    let mut rows = List::new(alloc);
    for row in 0..tables.row_count(table) {
        rows.push(table_row(alloc, tables, table, row)?)?;
    }
    Ok(rows)
}

/// One row of the table at this position.
#[tactic(auto, using(crate::proofs::TableRows::row_laws))]
fn table_row(alloc: Global, tables: &TableSet, table: u32, row: u32) -> Result<AnswerRow, Memory>
    requires table { HasTable tables.now table }
    requires row { row < length (rows_of tables.now table) }
    ensures { IfOk result (λ made. made ≡ slice_index_or (rows_of tables.now table) row no_row) }
{
    tables.keeps_limits();
    let count = tables.schema(table).columns.as_slice().len() as u32;
    let mut cells = List::new(alloc);
    for column in 0..count {
        cells.push(tables.cell(table, row, column).to_value(alloc)?)?;
    }
    Ok(AnswerRow { cells })
}
