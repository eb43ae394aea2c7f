//! The rows that a query makes of the scopes that it keeps.
ghost use Rattle.std.specs.Prelude.{◌≡◌, ◌∷◌, map, IfOk};
ghost use Rattle.sql_exec.specs.Ready.{kept, row_of, value};
ghost use Rattle.sql_exec.specs.Seen.{outer_seen, scopes_seen};

use crate::evaluation::{first_scope, next_scope, scalar_cell};
use crate::ready::{ReadyScalar, ReadySearch};
use crate::scopes::Scope;
use prefsql_tables::AnswerRow;
use prefsql_values::{List, Memory};
use std::alloc::Global;

/// The row of each scope that the search keeps.
pub(crate) fn gather<'t>(
    alloc: Global,
    search: &'t ReadySearch,
    items: &'t [ReadyScalar],
    outer: &[Scope<'t>],
) -> Result<List<AnswerRow>, Memory>
    ensures { IfOk result
        (λ rows. rows ≡ map
        (λ scope. row_of items.now (scope ∷ outer_seen outer.now))
        (kept search.now (outer_seen outer.now))) }
{
    let mut rows = List::new(alloc);
    let mut next = first_scope(alloc, search, outer)?;
    while let Some(walk) = next {
        rows.push(projected(alloc, items, walk.rows.as_slice(), outer)?)?;
        next = next_scope(alloc, search, walk, outer)?;
    }
    Ok(rows)
}

/// The row that the items show of a scope.
fn projected<'t>(
    alloc: Global,
    items: &'t [ReadyScalar],
    own: &[&'t AnswerRow],
    outer: &[Scope<'t>],
) -> Result<AnswerRow, Memory>
    ensures { IfOk result (λ row. row ≡ row_of items.now (scopes_seen own.now outer.now)) }
{
    let mut cells = List::new(alloc);
    for item in items {
        let cell = scalar_cell(alloc, item, own, outer)?;
        cells.push(cell.to_value(alloc)?)?;
    }
    Ok(AnswerRow { cells })
}
