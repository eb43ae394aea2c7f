//! The answer of a query.
ghost use Rattle.std.specs.Prelude.{◌≡◌, map, IfOk};
ghost use Rattle.sql_tree.specs.Fits.{FitsTables};
ghost use Rattle.sql_tree.specs.Meaning.{answer_of};
ghost use Rattle.sql_tree.specs.WellFormed.{IsWellFormed};
ghost use Rattle.sql_tree.specs.declared.tree.SqlItem.{SqlItem};

use crate::preparing::rows_selected;
use prefsql_tables::{Answer, TableSet};
use prefsql_values::{List, Memory, Text};
use sql_tree::{SqlItem, SqlQuery};
use std::alloc::Global;

/// The answer of a query over a set of tables (ISO/IEC 9075:1992, query expression): the names of
/// its items, and its rows by its keys and then by all columns. It is an error only for want of
/// memory.
///
/// Needs a well-formed query, and tables that it fits. The bounds of the numbers of such a query
/// are far below the range of those that the sums are computed in, so no sum wraps. A derived table
/// is computed once, EXISTS stops at its first row, and no product of FROM items is stored: each
/// condition that AND joins is judged as soon as the rows are chosen that it speaks of, and rows with
/// an equal value are found by it.
pub fn execute(alloc: Global, query: &SqlQuery, tables: &TableSet) -> Result<Answer, Memory>
    requires formed { IsWellFormed query.now }
    requires fits { FitsTables tables.now query.now }
    ensures { IfOk result (λ answer. answer ≡ answer_of tables.now query.now) }
{
    tables.keeps_limits();
    let names = item_names(alloc, query.items.as_slice())?;
    let rows = rows_selected(alloc, query, tables)?;
    let unsorted = Answer { names, rows };
    let answer = unsorted.arrange(alloc, query.distinct, query.order.as_slice())?;
    Ok(answer)
}

/// The names of the items of a query.
fn item_names(alloc: Global, items: &[SqlItem]) -> Result<List<Text>, Memory>
    ensures { IfOk result (λ names. names ≡ map (λ (item : SqlItem). item.name) items.now) }
{
    let mut names = List::new(alloc);
    for item in items {
        names.push(item.name.copy(alloc)?)?;
    }
    Ok(names)
}
