ghost use Rattle.std.specs.Prelude.{◌≡◌, ◌≤◌, ◌<◌, ◌↔◌, length, IfOk, IfSome, IsTrue};
ghost use Rattle.prefsql_tables.specs.Valid.{AllDiffer};
ghost use Rattle.prefsql_tables.specs.Names.{IsPlaceAmong, names_of, column_place};

use prefsql_values::{Domain, List, Memory, Text};
use std::alloc::Global;

/// A column of a table: its name, what it holds, and whether it admits NULL.
#[derive(Debug, Drop)]
pub struct Column {
    pub name: Text,
    pub domain: Domain,
    pub nullable: bool,
}

/// The columns of a table, in their order.
#[derive(Debug, Drop)]
pub struct Schema {
    pub columns: List<Column>,
}

impl Column {
    /// Whether both have the same name, hold the same, and admit NULL alike.
    fn is_same(&self, other: &Column) -> bool
        ensures { IsTrue result ↔ (self.now ≡ other.now) }
    {
        self.name.as_str() == other.name.as_str()
            && self.domain == other.domain
            && self.nullable == other.nullable
    }

    /// An equal column, or want of memory.
    pub(crate) fn copy(&self, alloc: Global) -> Result<Column, Memory>
        ensures { IfOk result (λ column. column ≡ self.now) }
    {
        Ok(Column {
            name: self.name.copy(alloc)?,
            domain: self.domain,
            nullable: self.nullable,
        })
    }
}

impl Schema {
    /// The position, from 0, of the column with this name. It is None where no column has the name.
    pub fn column_at(&self, name: &str) -> Option<u32>
        requires few { length self.now.columns ≤ 64 }
        requires differ { AllDiffer (names_of self.now.columns) }
        ensures place { result ≡ column_place self.now.columns name.now }
        ensures named { IsPlaceAmong (names_of self.now.columns) name.now result }
    {
        match place_among(self.columns.as_slice(), name) {
            Some(place) => Some(place as u32),
            None => None,
        }
    }

    /// Whether both have the same columns in the same order.
    pub(crate) fn is_same(&self, other: &Schema) -> bool
        ensures { IsTrue result ↔ (self.now.columns ≡ other.now.columns) }
    {
        are_same(self.columns.as_slice(), other.columns.as_slice())
    }

    /// An equal schema, or want of memory.
    pub fn copy(&self, alloc: Global) -> Result<Schema, Memory>
        ensures { IfOk result (λ schema. schema ≡ self.now) }
    {
        let mut columns = List::new(alloc);
        for column in self.columns.as_slice() {
            columns.push(column.copy(alloc)?)?;
        }
        Ok(Schema { columns })
    }
}

fn are_same(columns: &[Column], others: &[Column]) -> bool
    ensures { IsTrue result ↔ (columns.now ≡ others.now) }
{
    if columns.len() != others.len() {
        return false;
    }
    for (place, column) in columns.iter().enumerate() {
        if !column.is_same(&others[place]) {
            return false;
        }
    }
    true
}

/// The position of the first column with this name.
fn place_among(columns: &[Column], name: &str) -> Option<usize>
    ensures place { result ≡ column_place columns.now name.now }
    ensures within { IfSome result (λ place. place < length columns.now) }
{
    columns
        .iter()
        .position(|column| name == column.name.as_str())
}
