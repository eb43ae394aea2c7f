ghost use Rattle.std.specs.Prelude.{◌≡◌, ℕ, [], ◌∷◌, ◌++◌, ◌<◌, ◌≤◌, length, map, slice_index_or, IfOk, OnOk, OnErr};
ghost use Rattle.prefsql_values.specs.Value.{value_of};
ghost use Rattle.prefsql_tables.specs.KeptTable.{AdmitRow, HaveDomains, HaveRow, KeepRows, column_domains, domains_of, no_cells, values_in};
ghost use Rattle.prefsql_tables.specs.Table.{cell_in, no_row};
ghost use Rattle.prefsql_tables.specs.Valid.{IsSchema, IsRow, IsTable};

use crate::column_cells::ColumnCells;
use crate::schema::{Column, Schema};
use prefsql_values::{Cell, List, Memory, Value};
use std::alloc::{AllocError, Global};
use std::marker::Model;

/// The values of a row, one for each column.
#[derive(Debug, Drop)]
pub struct AnswerRow {
    pub cells: List<Value>,
}

/// A table: its columns and its rows. Each table is valid.
///
/// It keeps the cells of a row column by column, where a number takes eight bytes.
#[derive(Debug, Drop)]
pub struct Table {
    schema: Schema,
    cells: Vec<ColumnCells>,
    row_count: u32,
}

impl Model for Table {
    ghost use Rattle.prefsql_tables.specs.TableData.{TableData};

    ghost Value = { TableData };

    ghost use Rattle.prefsql_tables.specs.KeptTable.{IsKept, table_kept};

    ghost view = { λ t. table_kept t.schema.columns t.cells.items t.row_count };

    ghost invariant = { λ t. IsKept t.schema.columns t.cells.items t.row_count };
}

impl Table {
    /// The table of these columns without rows. It takes no memory.
    pub fn new(alloc: Global, schema: Schema) -> Table
        requires { IsSchema schema.columns }
        ensures { result ≡ record { columns = schema.columns; rows = [] } }
    {
        Table {
            schema,
            cells: Vec::new(alloc),
            row_count: 0,
        }
    }

    /// Adds the row at the end. After want of memory the table is as it was, and the row is
    /// dropped.
    pub fn push_row(&mut self, row: AnswerRow) -> Result<(), Memory>
        requires valid { IsRow self.old.columns row.cells }
        requires room { length self.old.rows < 100000 }
        ensures ok { OnOk result (self.new ≡ record self.old { rows = self.old.rows ++ row ∷ [] }) }
        ensures err { OnErr result (self.new ≡ self.old) }
    {
        begin(&mut self.cells, self.schema.columns.as_slice())?;
        put_row(
            &mut self.cells,
            self.row_count as usize,
            row.cells.into_vec(),
        )?;
        self.row_count += 1;
        Ok(())
    }

    /// The law that each table is valid: its columns, its rows and the limits of both.
    pub fn keeps_limits(&self)
        ensures { IsTable self.now }
    {
        let _ = &self.schema;
    }

    /// The columns.
    pub(crate) fn schema(&self) -> &Schema
        ensures { result.now.columns ≡ self.now.columns }
    {
        &self.schema
    }

    /// How many rows there are.
    pub(crate) fn row_count(&self) -> u32
        ensures { result ≡ length self.now.rows }
    {
        self.row_count
    }

    /// The cell of a row and a column, both from 0.
    pub(crate) fn cell(&self, row: u32, column: u32) -> Cell<'_>
        requires row { row < length self.now.rows }
        requires column { column < length self.now.columns }
        ensures { value_of result ≡ cell_in (slice_index_or self.now.rows row no_row) column }
    {
        self.cells[column as usize].cell(row as usize)
    }
}

impl AnswerRow {
    /// The cell of a column, from 0, and NULL past the last one.
    pub(crate) fn cell(&self, column: u32) -> Cell<'_>
        ensures { value_of result ≡ cell_in self.now column }
    {
        match self.cells.as_slice().get(column as usize) {
            Some(value) => value.cell(),
            None => Cell::Null,
        }
    }
}

/// Gives each column its cells, none at first, where no column has them yet.
fn begin(cells: &mut Vec<ColumnCells>, columns: &[Column]) -> Result<(), Memory>
    requires { HaveDomains cells.old.items columns.now }
    ensures values { (column : ℕ) → values_in cells.new.items column
        ≡ values_in cells.old.items column }
    ensures ok { OnOk result (domains_of cells.new.items ≡ column_domains columns.now) }
    ensures err { OnErr result (cells.new.items ≡ cells.old.items) }
{
    if !cells.is_empty() {
        return Ok(());
    }
    *cells = new_cells(*cells.allocator(), columns)?;
    Ok(())
}

/// Cells for each of the columns, none at first.
fn new_cells(alloc: Global, columns: &[Column]) -> Result<Vec<ColumnCells>, AllocError>
    ensures { IfOk result (λ cells. cells.items ≡ map no_cells columns.now) }
{
    columns
        .iter()
        .map(|column| ColumnCells::new(alloc, column.domain))
        .collect(alloc)
}

/// Puts a row behind the first `count` rows, which want of memory leaves as they were too.
fn put_row(columns: &mut Vec<ColumnCells>, count: usize, row: Vec<Value>) -> Result<(), Memory>
    requires admitted { AdmitRow (domains_of columns.old.items) row.items }
    requires reach { (column : ℕ) → column < length row.items
        → count ≤ length (values_in columns.old.items column) }
    ensures kept { KeepRows count columns.old.items columns.new.items }
    ensures ok { OnOk result (HaveRow count row.items columns.new.items) }
{
    for (place, value) in row.into_iter().enumerate() {
        columns[place].put(count, value)?;
    }
    Ok(())
}
