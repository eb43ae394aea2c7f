ghost use Rattle.std.specs.Prelude.{◌≡◌, ◌<◌, ◌^◌, ◌↔◌, [], ◌∷◌, ◌++◌, length, OnOk, OnErr, IsErrOf, IsTrue, Contains};
ghost use Rattle.prefsql_values.specs.Value.{value_of};
ghost use Rattle.prefsql_tables.specs.Names.{IsPlaceAmong, table_names, table_place};
ghost use Rattle.prefsql_tables.specs.Table.{HasTable, HasCell, IsTableAt, table_at, columns_of, rows_of, cell_at};
ghost use Rattle.prefsql_tables.specs.Valid.{IsTable, IsTableSet};
ghost use Rattle.prefsql_values.specs.Limits.{IsName};

use crate::schema::Schema;
use crate::table::Table;
use indexmap::IndexMap;
use prefsql_values::{Cell, Text};
use std::alloc::Global;
use std::marker::Model;
use thiserror::Error;

/// Why a table was not added to a set.
#[derive(Clone, Copy, Debug, PartialEq, Eq, Error)]
pub enum AddError {
    #[error("there is a table of this name already")]
    Duplicate,
    #[error("memory is used up")]
    Memory,
}

/// Tables by their names, in the order in which they were added. A contract sees the list of names
/// and tables.
#[derive(Drop)]
pub struct TableSet {
    tables: IndexMap<String, Table>,
}

impl Model for TableSet {
    ghost use Rattle.std.specs.Prelude.{List};
    ghost use Rattle.prefsql_tables.specs.TableData.{NamedTable};
    ghost use Rattle.prefsql_tables.specs.TableSetView.{named_tables};

    ghost Value = { List NamedTable };

    ghost view = { λ s. named_tables s.tables.entries };

    ghost use Rattle.prefsql_tables.specs.Valid.{IsTableSet};

    ghost invariant = { λ s. IsTableSet (named_tables s.tables.entries) };
}

impl TableSet {
    /// The set without tables. It takes no memory.
    pub fn new(alloc: Global) -> TableSet
        ensures { result ≡ [] }
    {
        TableSet {
            tables: IndexMap::new(alloc),
        }
    }

    /// Adds the table with this name at the end. After a refusal the set is as it was, and the
    /// table is dropped.
    ///
    /// Duplicate is the answer exactly where the set has the name already.
    pub fn add_table(&mut self, name: Text, table: Table) -> Result<(), AddError>
        requires named { IsName name }
        requires room { length self.old < 2 ^ 32 }
        ensures ok { OnOk result (self.new ≡ self.old ++ record { name = name; table = table }
            ∷ []) }
        ensures duplicate { IsErrOf result AddError.Duplicate ↔ Contains
            (table_names self.old) name }
        ensures err { OnErr result (self.new ≡ self.old) }
    {
        table.keeps_limits();
        let name = name.into_string();
        if self.tables.contains_key(name.as_str()) {
            return Err(AddError::Duplicate);
        }
        match self.tables.insert(name, table) {
            Ok(_) => Ok(()),
            Err(_) => Err(AddError::Memory),
        }
    }

    /// The position, from 0, of the table with this name. It is None exactly where no table has the
    /// name.
    pub fn find(&self, name: &str) -> Option<u32>
        ensures place { result ≡ table_place self.now name.now }
        ensures named { IsPlaceAmong (table_names self.now) name.now result }
    {
        match self.tables.get_index_of(name) {
            Some(place) => Some(place as u32),
            None => None,
        }
    }

    /// Whether the table at this position, from 0, has this name and these columns in their order.
    pub fn has_table_at(&self, index: u32, name: &str, schema: &Schema) -> bool
        ensures { IsTrue result ↔ IsTableAt self.now index name.now schema.now.columns }
    {
        self.keeps_limits();
        match self.find(name) {
            Some(place) => place == index && self.schema(place).is_same(schema),
            None => false,
        }
    }

    /// The columns of the table at this position.
    pub fn schema(&self, table: u32) -> &Schema
        requires { HasTable self.now table }
        ensures { result.now.columns ≡ columns_of self.now table }
    {
        self.table(table).schema()
    }

    /// How many rows the table at this position has.
    pub fn row_count(&self, table: u32) -> u32
        requires { HasTable self.now table }
        ensures { result ≡ length (rows_of self.now table) }
    {
        self.table(table).row_count()
    }

    /// The cell of a row and a column, both from 0, of the table at this position. It takes the
    /// same time everywhere.
    pub fn cell(&self, table: u32, row: u32, column: u32) -> Cell<'_>
        requires { HasCell self.now table row column }
        ensures { value_of result ≡ cell_at self.now table row column }
    {
        self.table(table).cell(row, column)
    }

    fn table(&self, place: u32) -> &Table
        requires { HasTable self.now place }
        ensures { result.now ≡ (table_at self.now place).table }
    {
        let (_, table) = self.tables.get_index(place as usize).unwrap();
        table
    }

    /// The law that each set of tables is valid: its names, its tables and the limits of both.
    pub fn keeps_limits(&self)
        ensures { IsTableSet self.now }
    {
        let _ = &self.tables;
    }
}
