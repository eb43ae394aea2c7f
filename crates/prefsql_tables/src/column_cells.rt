//! The cells of one column.

ghost use Rattle.std.specs.Prelude.{◌≡◌, ◌∷◌, ◌++◌, [], ◌<◌, length, take, slice_index_or, OnOk, OnErr};
ghost use Rattle.prefsql_values.specs.Value.{value_of};
ghost use Rattle.prefsql_values.specs.declared.value.Value.TheVariants as value;
ghost use Rattle.prefsql_values.specs.declared.value.Domain.TheVariants.{Integer, Chars};
ghost use Rattle.prefsql_tables.specs.CellsData.{Admits};
ghost use Rattle.prefsql_tables.specs.ColumnCells.{number_kept, text_kept};

use prefsql_values::{Cell, Domain, Memory, Text, Value};
use std::alloc::Global;
use std::marker::Model;

/// What stands for NULL among numbers. A number of a table has at most eighteen digits.
const NULL: i64 = i64::MIN;

/// The cells of a column in the order of the rows. A contract sees the column's domain and the
/// values.
#[derive(Debug, Drop)]
pub(crate) struct ColumnCells {
    kept: Kept,
}

#[derive(Debug, Drop)]
enum Kept {
    Numbers(Vec<i64>),
    Texts(Vec<Option<Text>>),
}

impl Model for ColumnCells {
    ghost use Rattle.prefsql_tables.specs.CellsData.{CellsData};

    ghost Value = { CellsData };

    ghost use Rattle.prefsql_tables.specs.ColumnCells.{cells_kept};

    ghost view = { λ c. cells_kept c.kept };
}

impl ColumnCells {
    /// No cells yet. It takes no memory.
    pub(crate) fn new(alloc: Global, domain: Domain) -> ColumnCells
        ensures { result ≡ record { domain = domain; values = [] } }
    {
        let kept = match domain {
            Domain::Integer => Kept::Numbers(Vec::new(alloc)),
            Domain::Chars => Kept::Texts(Vec::new(alloc)),
        };
        ColumnCells { kept }
    }

    /// Puts the value behind the first `count` cells. What stood there is dropped.
    pub(crate) fn put(&mut self, count: usize, value: Value) -> Result<(), Memory>
        requires { Admits self.old.domain value }
        ensures ok { OnOk result (self.new ≡ record self.old {
          values = take count self.old.values
              ++ value ∷ [];
        }) }
        ensures err { OnErr result (self.new
            ≡ record self.old { values = take count self.old.values }) }
    {
        match &mut self.kept {
            Kept::Numbers(numbers) => put_behind(numbers, count, number_of(value)),
            Kept::Texts(texts) => put_behind(texts, count, text_of(value)),
        }
    }

    /// The cell of a row, from 0.
    pub(crate) fn cell(&self, row: usize) -> Cell<'_>
        requires { row < length self.now.values }
        ensures { value_of result ≡ slice_index_or self.now.values row value.Null }
    {
        match &self.kept {
            Kept::Numbers(numbers) => match numbers[row] {
                NULL => Cell::Null,
                n => Cell::Num(i128::from(n)),
            },
            Kept::Texts(texts) => match &texts[row] {
                Some(text) => Cell::Str(text.as_str()),
                None => Cell::Null,
            },
        }
    }
}

fn number_of(value: Value) -> i64
    requires { Admits Integer value }
    ensures { number_kept result ≡ value }
{
    match value {
        Value::Num(n) => n as i64,
        _ => NULL,
    }
}

fn text_of(value: Value) -> Option<Text>
    requires { Admits Chars value }
    ensures { text_kept result ≡ value }
{
    match value {
        Value::Str(text) => Some(text),
        _ => None,
    }
}

/// Puts the item behind the first `count` items. What stood there is dropped.
fn put_behind<T: Drop>(items: &mut Vec<T>, count: usize, item: T) -> Result<(), Memory>
    ensures ok { OnOk result (items.new.items ≡ take count items.old.items ++ item ∷ []) }
    ensures err { OnErr result (items.new.items ≡ take count items.old.items) }
{
    items.truncate(count);
    items.push(item)?;
    Ok(())
}
