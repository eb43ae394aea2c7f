ghost use Rattle.std.specs.Prelude.{◌≡◌, ◌≢◌, ◌<◌, ◌-◌, length, IfOk, Contains, slice_index_or};
ghost use Rattle.std.specs.Bool.{OnTrue, OnFalse};
ghost use Rattle.std.specs.List.Sorted.{IsSorted, IsPermutation};
ghost use Rattle.prefsql_tables.specs.Arranged.{IsArranged, KeepsOrderedOnce};
ghost use Rattle.prefsql_tables.specs.Arrangement.{HasOneArrangement};
ghost use Rattle.prefsql_tables.specs.RowOrder.{row_order};
ghost use Rattle.prefsql_tables.specs.declared.table.AnswerRow.{AnswerRow};

use crate::order::{compare_rows, is_same};
use crate::place::SortKey;
use crate::table::AnswerRow;
use prefsql_values::{List, Memory, Text};
use std::alloc::Global;

/// The answer of a query: the names of its columns and its rows.
#[derive(Debug, Drop)]
pub struct Answer {
    pub names: List<Text>,
    pub rows: List<AnswerRow>,
}

impl Answer {
    /// The answer with its rows in their order, and with `distinct` without repetition.
    ///
    /// The order is by the keys and then by all columns from left to right. Ascending, NULL stands
    /// after all values; descending is the reverse. Two NULLs count as equal. After want of memory
    /// the answer is dropped.
    pub fn arrange(self, alloc: Global, distinct: bool, keys: &[SortKey]) -> Result<Answer, Memory>
        ensures names { IfOk result (λ answer. answer.names ≡ self.names) }
        ensures rows { IfOk result (λ answer. IsArranged distinct keys.now self.rows answer.rows) }
    {
        let Answer { names, rows } = self;
        let sorted = sorted(rows.into_vec(), keys)?;
        if !distinct {
            let rows = List::of(sorted);
            return Ok(Answer { names, rows });
        }
        let rows = without_repeats(alloc, sorted)?;
        Ok(Answer { names, rows })
    }
}

/// The law that the rows of an answer have exactly one arrangement.
pub fn has_one_arrangement()
    ensures { HasOneArrangement }
{}

fn sorted(rows: Vec<AnswerRow>, keys: &[SortKey]) -> Result<Vec<AnswerRow>, Memory>
    ensures same { IfOk result (λ sorted. IsPermutation rows.items sorted.items) }
    ensures sorted { IfOk result (λ sorted. IsSorted (row_order keys.now) sorted.items) }
{
    let mut sorted = rows;
    sorted.sort_by(|a, b| compare_rows(keys, a, b))?;
    Ok(sorted)
}

/// Each of the rows once, where equal rows stand side by side.
fn without_repeats(alloc: Global, rows: Vec<AnswerRow>) -> Result<List<AnswerRow>, Memory>
    ensures { IfOk result (λ once. KeepsOrderedOnce rows.items once) }
{
    let mut once = List::new(alloc);
    for row in rows {
        if !ends_with(once.as_slice(), &row) {
            once.push(row)?;
        }
    }
    Ok(once)
}

/// Whether the last of the rows is this one.
fn ends_with(rows: &[AnswerRow], row: &AnswerRow) -> bool
    ensures there { OnTrue result (Contains rows.now row.now) }
    ensures differs { OnFalse result ((d : AnswerRow) → 0 < length rows.now
        → slice_index_or rows.now (length rows.now - 1) d ≢ row.now) }
{
    match rows.last() {
        Some(last) => is_same(last, row),
        None => false,
    }
}
