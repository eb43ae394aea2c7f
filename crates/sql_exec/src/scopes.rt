//! The rows that a part of a query sees.
ghost use Rattle.std.specs.Prelude.{◌≡◌, ◌∷◌, IfOk};
ghost use Rattle.prefsql_values.specs.Value.{value_of};
ghost use Rattle.prefsql_tables.specs.Table.{cell_in, no_row};
ghost use Rattle.std.specs.Prelude.{slice_index_or};
ghost use Rattle.sql_tree.specs.Meaning.{place_value};
ghost use Rattle.sql_exec.specs.Seen.{outer_seen, rows_seen, scopes_seen};

use prefsql_tables::AnswerRow;
use prefsql_values::{Cell, Memory};
use sql_tree::SqlPlace;
use std::alloc::Global;

/// One row of each FROM item of a query that another query stands in.
#[derive(Drop)]
pub(crate) struct Scope<'t> {
    rows: Vec<&'t AnswerRow>,
}

/// The cell in a column, and NULL where nothing stands. `own` has the rows of the query that the
/// column stands in, and `outer` those of the queries round it, the innermost first.
pub(crate) fn cell_at<'t>(place: SqlPlace, own: &[&'t AnswerRow], outer: &[Scope<'t>]) -> Cell<'t>
    ensures { value_of result ≡ place_value (scopes_seen own.now outer.now) place }
{
    if place.up == 0 {
        return cell_of(own, place.item, place.column);
    }
    match outer.get(place.up as usize - 1) {
        Some(scope) => cell_of(scope.rows.as_slice(), place.item, place.column),
        None => Cell::Null,
    }
}

/// The cell in a column of one of the rows.
fn cell_of<'t>(rows: &[&'t AnswerRow], item: u32, column: u32) -> Cell<'t>
    ensures { value_of result ≡ cell_in (slice_index_or (rows_seen rows.now) item no_row) column }
{
    match rows.get(item as usize) {
        Some(row) => row_cell(row, column),
        None => Cell::Null,
    }
}

/// The cell of a row in a column, and NULL past the last one.
fn row_cell<'t>(row: &'t AnswerRow, column: u32) -> Cell<'t>
    ensures { value_of result ≡ cell_in row.now column }
{
    match row.cells.as_slice().get(column as usize) {
        Some(value) => value.cell(),
        None => Cell::Null,
    }
}

/// The scopes round a query that stands among these.
pub(crate) fn entered<'t>(
    alloc: Global,
    own: &[&'t AnswerRow],
    outer: &[Scope<'t>],
) -> Result<Vec<Scope<'t>>, Memory>
    ensures { IfOk result (λ scopes. outer_seen scopes.items ≡ scopes_seen own.now outer.now) }
{
    let mut scopes = Vec::new(alloc);
    scopes.push(copied(alloc, own)?)?;
    for scope in outer {
        scopes.push(copied(alloc, scope.rows.as_slice())?)?;
    }
    Ok(scopes)
}

/// A scope of these rows.
fn copied<'t>(alloc: Global, rows: &[&'t AnswerRow]) -> Result<Scope<'t>, Memory>
    ensures { IfOk result (λ scope. rows_seen scope.rows.items ≡ rows_seen rows.now) }
{
    let mut copies = Vec::new(alloc);
    for row in rows {
        copies.push(*row)?;
    }
    Ok(Scope { rows: copies })
}
