//! Rows by their value in a column.
ghost use Rattle.std.specs.Prelude.{◌≡◌, [], ◌∷◌, ◌++◌, if◌then◌else◌, IfOk, OnOk};
ghost use Rattle.prefsql_tables.specs.Table.{cell_in};
ghost use Rattle.prefsql_values.specs.Value.{value_eq, value_of};
ghost use Rattle.prefsql_values.specs.declared.value.Value.{Value};
ghost use Rattle.sql_exec.specs.RowKeys.{group_at, rows_at, rows_found, same_rows};

use crate::row_key::ValueKey;
use indexmap::IndexMap;
use prefsql_tables::AnswerRow;
use prefsql_values::{Cell, List, Memory, Value, is_null};
use std::alloc::Global;

/// Rows by their value in a column, in their order. Those where it is NULL are a group too.
#[derive(Drop)]
pub(crate) struct RowGroups {
    groups: IndexMap<ValueKey, List<AnswerRow>>,
}

impl RowGroups {
    /// The groups of these rows by this column.
    pub(crate) fn of(alloc: Global, rows: List<AnswerRow>, column: u32) -> Result<RowGroups, Memory>
        ensures { IfOk result (λ groups. (v : Value) → rows_at groups v ≡ same_rows rows column v) }
    {
        let mut groups = IndexMap::new(alloc);
        for row in rows.into_vec() {
            let value = value_in(alloc, &row, column)?;
            add_row(alloc, &mut groups, value, row)?;
        }
        Ok(RowGroups { groups })
    }

    /// The rows whose value is equal to this one, in their order. NULL is equal to nothing, or to
    /// NULL where that is asked for.
    pub(crate) fn equal_to(
        &self,
        alloc: Global,
        nulls: bool,
        cell: Cell<'_>,
    ) -> Result<&[AnswerRow], Memory>
        ensures { IfOk result (λ rows. rows.now ≡ rows_found self.now nulls (value_of cell.entry)) }
    {
        if !nulls && is_null(cell) {
            return Ok(&[]);
        }
        let value = cell.to_value(alloc)?;
        match self.groups.get(&ValueKey { value }) {
            Some(rows) => Ok(rows.as_slice()),
            None => Ok(&[]),
        }
    }
}

/// The value of a row in a column, and NULL past the last one.
fn value_in(alloc: Global, row: &AnswerRow, column: u32) -> Result<Value, Memory>
    ensures { IfOk result (λ value. value ≡ cell_in row.now column) }
{
    match row.cells.as_slice().get(column as usize) {
        Some(value) => value.copy(alloc),
        None => Ok(Value::Null),
    }
}

/// Adds a row to the group of a value.
fn add_row(
    alloc: Global,
    groups: &mut IndexMap<ValueKey, List<AnswerRow>>,
    value: Value,
    row: AnswerRow,
) -> Result<(), Memory>
    ensures { OnOk result ((v : Value) → group_at groups.new v
        ≡ group_at groups.old v ++ (if value_eq value v then row ∷ [] else [])) }
{
    let key = ValueKey { value };
    let mut group = match groups.swap_remove(&key) {
        Some(group) => group,
        None => List::new(alloc),
    };
    group.push(row)?;
    groups.insert(key, group)?;
    Ok(())
}
